use crate::asking::expect_answer;
use hex::decode;
use std::test::Fail;
use worked_vectors::files::{ADDR, FIVE};

#[test]
fn the_code_of_an_admitted_pie_is_listed(rt: HostRuntime) -> Result<(), Fail> {
    for (digits, status, text) in [
        (
            FIVE,
            0,
            "[ap] = 5, ap++\n[ap-1] = [[fp-5]]\n[ap] = [fp-5] + 1, ap++\n[ap] = [fp-4], ap++\n[ap] = [fp-3], ap++\nret\n",
        ),
        (ADDR, 1, "refused 26 0 9\n"),
        ("", 1, "refused 3 0\n"),
    ] {
        let file = decode(rt.alloc(), digits)?;
        expect_answer(&rt, "list", file, status, text.as_bytes())?;
    }
    Ok(())
}
