//! The PIEs and scripts of the generator. The files are by a program that shares nothing with ours.

use hex::decode;
use pie_format::write;
use std::test::Fail;
use work_maker::{down, make_script};
use worked_vectors::files::{DOWN_3, DOWN_14};

#[test]
fn countdowns_of_3_and_14_rounds(rt: HostRuntime) -> Result<(), Fail> {
    let three = down(rt.alloc(), 3)?;
    let bytes_of_three = write(rt.alloc(), &three)?;
    assert_eq!(rt;
        bytes_of_three.as_slice(),
        decode(rt.alloc(), DOWN_3)?.as_slice()
    );
    let fourteen = down(rt.alloc(), 14)?;
    let bytes_of_fourteen = write(rt.alloc(), &fourteen)?;
    assert_eq!(rt;
        bytes_of_fourteen.as_slice(),
        decode(rt.alloc(), DOWN_14)?.as_slice()
    );
    Ok(())
}

#[test]
fn a_script_of_one_job(rt: HostRuntime) -> Result<(), Fail> {
    let script = make_script(rt.alloc(), 1)?;
    let line = format!(in rt.alloc(); "submit 0 {DOWN_14}\n")?;
    assert_eq!(rt; script.as_slice(), line.as_bytes());
    Ok(())
}

#[test]
fn a_question_after_eight_jobs(rt: HostRuntime) -> Result<(), Fail> {
    let script = make_script(rt.alloc(), 8)?;
    assert!(rt; script.as_slice().ends_with(b"\nstatus 3 1\n"));
    Ok(())
}
