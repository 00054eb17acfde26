use crate::asking::{answer, expect_answer, expect_asked};
use hex::decode;
use std::test::Fail;
use worked_vectors::files::DOWN_14;

#[test]
fn what_is_listed_runs_to_its_file(rt: HostRuntime) -> Result<(), Fail> {
    let (status, text) = answer(&rt, "list", decode(rt.alloc(), DOWN_14)?)?;
    assert_eq!(rt; status, 0);
    let file = decode(rt.alloc(), DOWN_14)?;
    expect_answer(&rt, "run", text, 0, file.as_slice())
}

#[test]
fn refused_texts_have_their_lines(rt: HostRuntime) -> Result<(), Fail> {
    for (text, line) in [
        ("[ap] = [ap+1], ap++\n", "refused execution 1 0\n"),
        ("[fp-5] = 20\n", "refused execution 2 0 2:0 20\n"),
        ("jmp rel 0\n", "refused execution 4 65536\n"),
        ("foo\n", "refused assembly 1 1\n"),
        ("", "refused execution 3 0 1\n"),
    ] {
        let mut bytes = Vec::new(rt.alloc());
        bytes.extend_from_slice(text.as_bytes())?;
        expect_answer(&rt, "run", bytes, 1, line.as_bytes())?;
    }
    Ok(())
}

#[test]
fn a_made_script_hands_in_its_file(rt: HostRuntime) -> Result<(), Fail> {
    let line = format!(in rt.alloc(); "submit 0 {DOWN_14}\n")?;
    expect_asked(
        &rt,
        &["make", "1"],
        Vec::new(rt.alloc()),
        0,
        line.as_bytes(),
    )
}
