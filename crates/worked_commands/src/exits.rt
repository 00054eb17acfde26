use shared_prover_cli::{Status, exit_code, explanation};
use std::process::ExitCode;
use std::test::Fail;

// Every status, with its exit status and its line on standard error.
const ENDS: [(Status, u8, Option<&'static str>); 8] = [
    (Status::Done, 0, None),
    (Status::Refused, 1, None),
    (
        Status::Usage,
        2,
        Some(
            "usage: shared_prover replay | place | list | check | run | boot | make N | batch --clients C | export --clients C --batch B | trial N | serve --clients C --workers W",
        ),
    ),
    (Status::Script, 3, None),
    (Status::ReadFault, 4, Some("the input could not be read")),
    (Status::WriteFault, 5, None),
    (Status::OutOfMemory, 6, Some("out of memory")),
    (
        Status::TooLong,
        7,
        Some("the input is longer than 201326592 bytes"),
    ),
];

#[test]
fn each_status_has_its_exit_status_and_its_line(rt: HostRuntime) -> Result<(), Fail> {
    for (status, number, line) in ENDS {
        assert!(rt; exit_code(status) == ExitCode::from(number));
        assert_eq!(rt; explanation(status), line);
    }
    Ok(())
}
