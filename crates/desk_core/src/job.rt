use cairo_model::Checked;

/// An admitted PIE, with its client and its number among that client's jobs, from 0.
#[derive(Debug, Drop)]
pub struct Job {
    pub client: u32,
    pub number: u32,
    pub checked: Checked,
}
