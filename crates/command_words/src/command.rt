/// What the program can be asked to do.
#[derive(Clone, Copy, Debug, PartialEq, Eq)]
pub enum Command {
    /// Says whether a PIE is accepted alone.
    Replay,
    /// Writes the certificate of a PIE that is accepted alone.
    Place,
    /// Writes the listing of the code of a PIE that is accepted alone.
    List,
    /// Says whether a certificate is accepted.
    Check,
    /// Runs an assembly text, and writes the PIE of the run.
    Run,
    /// Writes the words of the bootloader.
    Boot,
    /// Writes a script of so many jobs.
    Make(u32),
    /// Runs a script of so many clients, and writes the transcript.
    Batch(u32),
    /// Runs a script of so many clients, and writes the certificate of the batch of this number.
    Export(u32, u32),
    /// Runs the script of so many jobs, and writes its numbers.
    Trial(u32),
    /// Serves a script of so many clients by threads, with so many workers, and writes the transcript.
    Serve(u32, u32),
}
