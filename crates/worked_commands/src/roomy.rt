use crate::asking::{answer, expect_answer, expect_found};
use hex::decode;
use std::test::Fail;
use worked_vectors::certificates::ROOMY_CERTIFICATE;
use worked_vectors::files::ROOMY;

#[test]
fn a_pie_with_all_rooms_goes_through_every_command(rt: HostRuntime) -> Result<(), Fail> {
    let alloc = rt.alloc();
    let line =
        b"admitted program abb7d7032e01b0bdcf283e04a90d12577a5fa776702aeff556f4b14d6ee3de5d outputs 17 1000020 4000029\n";
    expect_answer(&rt, "replay", decode(alloc, ROOMY)?, 0, line)?;
    let placed = answer(&rt, "place", decode(alloc, ROOMY)?)?;
    expect_found(
        &rt,
        &placed,
        0,
        decode(alloc, ROOMY_CERTIFICATE)?.as_slice(),
    );
    let line = b"accepted alone 4 outputs 17 1000020 4000029\n";
    expect_answer(&rt, "check", placed.1, 0, line)?;
    let listed =
        b"word 5\nword 5\n[ap] = [fp-5] + 3, ap++\n[ap] = [fp-4] + 3, ap++\n[ap] = [fp-3] + 20, ap++\nret\n";
    expect_answer(&rt, "list", decode(alloc, ROOMY)?, 0, listed)?;
    Ok(())
}
