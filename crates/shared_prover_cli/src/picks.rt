/// The top calls.
#[derive(Clone, Copy, Debug, PartialEq, Eq)]
pub enum Pick {
    /// `run_plain`, on one thread but for the checks.
    Plain,
    /// `run_serve`, which starts threads and waits for them.
    Serve,
}
