ghost use Rattle.std.specs.Prelude.{◌≡◌};
ghost use Rattle.shared_prover_cli.specs.Exits.{number_of};

/// How a run ended.
#[derive(Clone, Copy, Debug, PartialEq, Eq)]
pub enum Status {
    /// The text was written.
    Done,
    /// The input was refused, and the text that says why was written.
    Refused,
    /// The words are no command.
    Usage,
    /// The script was refused, and the text that says where was written.
    Script,
    /// A read failed.
    ReadFault,
    /// A write failed, after a part of the text.
    WriteFault,
    /// Memory ran out.
    OutOfMemory,
    /// The input is longer than the limit.
    TooLong,
}

impl Status {
    /// The program's exit status.
    pub fn number(self) -> u8
        ensures { result ≡ number_of self }
    {
        match self {
            Status::Done => 0,
            Status::Refused => 1,
            Status::Usage => 2,
            Status::Script => 3,
            Status::ReadFault => 4,
            Status::WriteFault => 5,
            Status::OutOfMemory => 6,
            Status::TooLong => 7,
        }
    }
}
