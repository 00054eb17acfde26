use crate::asking::answer;
use std::test::Fail;

#[test]
fn each_word_has_its_line(rt: HostRuntime) -> Result<(), Fail> {
    let (status, text) = answer(&rt, "boot", Vec::new(rt.alloc()))?;
    let begins = text
        .as_slice()
        .starts_with(b"1 480280007ffb8000\n2 482680017ffb8000\n");
    let ends = text.as_slice().ends_with(b"\n117 208b7fff7fff7ffe\n");
    assert_eq!(rt; (status, begins, ends, text.len()), (0, true, true, 2_349));
    Ok(())
}
