use cairo_model::Fact;

/// A line of a script. Its client comes first.
#[derive(Debug, Drop)]
pub enum Line {
    /// Hands in the bytes of a PIE.
    Submit(u32, Vec<u8>),
    /// Asks whether the fact stands.
    Ask(u32, Fact),
    /// Asks where the client's job of this number stands.
    Status(u32, u32),
    /// Lets the batches be made first.
    Settle(u32),
}

/// The lines of a script, in order: at most `MOST_LINES`.
#[derive(Debug, Drop)]
pub struct Script {
    pub lines: Vec<Line>,
}
