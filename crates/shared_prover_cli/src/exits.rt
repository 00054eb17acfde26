ghost use Rattle.std.specs.Prelude.{◌≡◌};
ghost use Rattle.std.specs.Process.{exit_status};
ghost use Rattle.shared_prover_cli.specs.Exits.{number_of};

use crate::status::Status;
use std::process::ExitCode;

/// What the process ends with: the number of the status.
pub fn exit_code(status: Status) -> ExitCode
    ensures { exit_status result ≡ number_of status }
{
    ExitCode::from(status.number())
}

/// What standard error says of a run that wrote nothing.
pub fn explanation(status: Status) -> Option<&'static str> {
    match status {
        Status::Usage => Some(
            "usage: shared_prover replay | place | list | check | run | boot | make N | batch --clients C | export --clients C --batch B | trial N | serve --clients C --workers W",
        ),
        Status::ReadFault => Some("the input could not be read"),
        Status::OutOfMemory => Some("out of memory"),
        Status::TooLong => Some("the input is longer than 201326592 bytes"),
        Status::Done | Status::Refused | Status::Script | Status::WriteFault => None,
    }
}
