/// Whether an input was answered or refused, and by what.
#[derive(Clone, Copy, Debug, PartialEq, Eq)]
pub enum Outcome {
    Done,
    Refused,
    /// The script that the input is was refused.
    Script,
}

/// What a command answers to an input, with the text that is still to be written.
#[derive(Drop)]
pub struct Reply {
    pub outcome: Outcome,
    pub text: Vec<u8>,
}
