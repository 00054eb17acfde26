use crate::phase::Phase;
use cairo_model::Cert;

/// Jobs that are run together: so many of them, from the first one's index on.
#[derive(Debug, Drop)]
pub struct Batch {
    pub first: u32,
    pub count: u32,
    pub phase: Phase,
    /// The certificate of a registered batch.
    pub cert: Option<Cert>,
}
