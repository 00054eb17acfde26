use crate::asking::{answer, file_and_zero, file_cut};
use hex::decode;
use std::alloc::Global;
use std::process::Abort;
use std::test::Fail;
use worked_vectors::files::{
    ADDR, BACK, DOWN_3, DOWN_14, EMPTY, FIVE, FIVE_MINUS_ONE, FIVE_WITH_5_STEPS, FIVE_WITH_7_STEPS,
    HASH0, HASH0_OVER, JUMP, PROD, RANGE_7, RANGE_MAX, RANGE_OVER, TALL, UNDER,
};

/// The line is the answer, and the status says whether it is a refusal.
pub fn expect_line(rt: &impl Abort, found: &(u8, Vec<u8>), line: &str) {
    assert_eq!(rt; found.1.as_slice(), line.as_bytes(), "{line}");
    assert_eq!(rt; found.0, u8::from(line.starts_with("refused")), "{line}");
}

#[test]
fn named_files_have_their_lines(rt: HostRuntime) -> Result<(), Fail> {
    for (digits, line) in [
        (
            EMPTY,
            "admitted program 4ae2a31bf9da6dec8e814ee65e6495560d58ecd3a1727ee49e5279ace5919187 outputs\n",
        ),
        (
            FIVE,
            "admitted program 644b2c86fee53a4ad40c21efa0e8524e34c75966cf12fcbfe5a3ae40d0a8bcbd outputs 5\n",
        ),
        (
            FIVE_MINUS_ONE,
            "admitted program c2c4a984c6f23b4322e10f8fcdb18420dbb7325028470d8ee1a584b6d4abd9b3 outputs 18446744069414584320\n",
        ),
        (FIVE_WITH_5_STEPS, "refused 27 0:7\n"),
        (FIVE_WITH_7_STEPS, "refused 26 6 1\n"),
        (
            BACK,
            "admitted program 494896652e769655dad752fa8566c2ee783c4130ecd69fa6dcf50740b70097bb outputs\n",
        ),
        (
            DOWN_3,
            "admitted program 060b44e15e5132b4502e85f89f14b6318fd596379663ff7752488ded43be6a50 outputs 1\n",
        ),
        (
            DOWN_14,
            "admitted program 86fc2c458549ae7dcd82722753b9962ba679e8b0272a8ba0035f3ea4f01be5bb outputs 1\n",
        ),
        (ADDR, "refused 26 0 9\n"),
        (PROD, "refused 26 0 6\n"),
        (UNDER, "refused 26 0 10\n"),
        (JUMP, "refused 28 1:5\n"),
        (
            TALL,
            "admitted program 4ae2a31bf9da6dec8e814ee65e6495560d58ecd3a1727ee49e5279ace5919187 outputs\n",
        ),
        (
            RANGE_7,
            "admitted program fa7e3c0e5c52b185de1e537fad53f9d76bfc6f6916665e71a76989824bd89fce outputs\n",
        ),
        (
            RANGE_MAX,
            "admitted program 1a98d871cd8e33a8e5a981a85a557f70ee4afe37cd73d9032090a25fdd878369 outputs\n",
        ),
        (RANGE_OVER, "refused 24 0\n"),
        (
            HASH0,
            "admitted program d6798d74d6a6844cc13edc1a670bf2b01b89f378cfd1f8a8b2a4e118a399bc96 outputs\n",
        ),
        (HASH0_OVER, "refused 25 0\n"),
        ("", "refused 3 0\n"),
        ("504b0304", "refused 2\n"),
    ] {
        expect_line(
            &rt,
            &answer(&rt, "replay", decode(rt.alloc(), digits)?)?,
            line,
        );
    }
    Ok(())
}

/// A file with other bytes at these places.
pub fn changed(alloc: Global, digits: &str, changes: &[(usize, &[u8])]) -> Result<Vec<u8>, Fail> {
    let mut file = decode(alloc, digits)?;
    for (at, bytes) in changes {
        for (i, byte) in bytes.iter().enumerate() {
            if let Some(place) = file.get_mut(at.saturating_add(i)) {
                *place = *byte;
            }
        }
    }
    Ok(file)
}

// A file with this text as its metadata, in the place of one of 56 bytes.
fn with_metadata(alloc: Global, digits: &str, text: &[u8]) -> Result<Vec<u8>, Fail> {
    let old = decode(alloc, digits)?;
    let mut file = Vec::new(alloc);
    file.extend_from_slice(old.get(..8).unwrap_or(&[]))?;
    file.extend_from_slice(&u32::try_from(text.len()).unwrap_or(0).to_be_bytes())?;
    file.extend_from_slice(text)?;
    file.extend_from_slice(old.get(68..).unwrap_or(&[]))?;
    Ok(file)
}

// Cell k of FIVE begins at byte 72 + 16 k, and so does that of EMPTY.
#[test]
fn changed_files_have_their_first_refusal(rt: HostRuntime) -> Result<(), Fail> {
    let prime = 18446744069414584321u64.to_be_bytes();
    let fourth = [0, 0, 0, 0, 0, 4, 0, 0, 0, 0, 0, 0, 0, 0, 0, 1];
    let third = [
        0, 0, 0, 0, 0, 3, 0, 0, 0x48, 0x26, 0x80, 0x01, 0x7f, 0xfb, 0x80, 0x00,
    ];
    for (digits, changes, line) in [
        (FIVE, [(96, prime.as_slice()), (0, b"")], "refused 10 1\n"),
        (
            FIVE,
            [(120, fourth.as_slice()), (136, third.as_slice())],
            "refused 10 4\n",
        ),
        (FIVE, [(136, third.as_slice()), (0, b"")], "refused 10 4\n"),
        (FIVE, [(79, [2].as_slice()), (0, b"")], "refused 10 0\n"),
        (FIVE, [(71, [19].as_slice()), (0, b"")], "refused 3 360\n"),
        (FIVE, [(71, [17].as_slice()), (0, b"")], "refused 11 16\n"),
        (FIVE, [(0, b"D".as_slice()), (0, b"")], "refused 2\n"),
        (FIVE, [(14, [0xff].as_slice()), (0, b"")], "refused 4\n"),
        (
            FIVE,
            [(80, [0xc8].as_slice()), (0, b"")],
            "refused 26 0 2\n",
        ),
        (FIVE, [(151, [2].as_slice()), (311, &[2])], "refused 29 0\n"),
        (EMPTY, [(20, b"4".as_slice()), (0, b"")], "refused 21 4\n"),
        (
            EMPTY,
            [(143, [0].as_slice()), (144, &[0; 8])],
            "refused 22 0\n",
        ),
        (EMPTY, [(66, b"2".as_slice()), (0, b"")], "refused 5 2\n"),
        (
            HASH0,
            [(160, b"".as_slice()), (600, &[0])],
            "refused 25 0\n",
        ),
    ] {
        let file = changed(rt.alloc(), digits, changes.as_slice())?;
        expect_line(&rt, &answer(&rt, "replay", file)?, line);
    }
    Ok(())
}

#[test]
fn a_file_ends_with_its_last_cell(rt: HostRuntime) -> Result<(), Fail> {
    let shorter = file_cut(rt.alloc(), FIVE, 359)?;
    expect_line(&rt, &answer(&rt, "replay", shorter)?, "refused 3 359\n");
    let longer = file_and_zero(rt.alloc(), FIVE)?;
    expect_line(&rt, &answer(&rt, "replay", longer)?, "refused 11 1\n");
    Ok(())
}

#[test]
fn metadata_is_what_json_reads(rt: HostRuntime) -> Result<(), Fail> {
    let admitted =
        "admitted program 644b2c86fee53a4ad40c21efa0e8524e34c75966cf12fcbfe5a3ae40d0a8bcbd outputs 5\n";
    let none = "refused 4\n";
    for (text, line) in [
        (
            r#" {"main":0,"sizes":[8,9,1,0,0,0,0],"steps":6,"version":1} "#,
            admitted,
        ),
        (
            r#"{ "version" : 1 , "steps" : 6 , "main" : 0 , "sizes" : [ 8,9,1,0,0,0,0 ] }"#,
            admitted,
        ),
        (
            r#"{"\u006dain":0,"sizes":[8,9,1,0,0,0,0],"steps":6,"version":1}"#,
            admitted,
        ),
        (
            r#"{"main":0,"sizes":[8,9,1,0,0,0,0],"steps":7,"steps":6,"version":1}"#,
            admitted,
        ),
        (
            r#"{"main":0,"sizes":[8,9,1,0,0,0,0],"steps":"x","steps":6,"version":1}"#,
            admitted,
        ),
        (
            r#"{"main":0,"sizes":[8,9,1,0,0,0,0],"steps":6.0,"version":1}"#,
            none,
        ),
        (
            r#"{"main":0,"sizes":[8,9,1,0,0,0,0],"steps":6e0,"version":1}"#,
            none,
        ),
        (
            r#"{"main":-0,"sizes":[8,9,1,0,0,0,0],"steps":6,"version":1}"#,
            none,
        ),
        (
            r#"{"main":18446744073709551616,"sizes":[8,9,1,0,0,0,0],"steps":6,"version":1}"#,
            none,
        ),
        (
            r#"{"main":0,"sizes":[8,9,1,0,0,0,0],"steps":6,"version":1,"extra":null}"#,
            none,
        ),
        (r#"{"main":0,"sizes":[8,9,1,0,0,0,0],"steps":6}"#, none),
        (
            r#"{"main":0,"sizes":[8,9,1,0,0,0,0],"steps":6,"version":1}x"#,
            none,
        ),
        ("null", none),
        ("", none),
        (
            r#"{"main":0,"sizes":[8,9,1,0,0,0],"steps":6,"version":2}"#,
            "refused 5 2\n",
        ),
        (
            r#"{"main":0,"sizes":[8,9,1,0,0,0],"steps":65537,"version":1}"#,
            "refused 6\n",
        ),
        (
            r#"{"main":0,"sizes":[8,2147483648,1,0,0,0,0],"steps":6,"version":1}"#,
            "refused 6\n",
        ),
        (
            r#"{"main":0,"sizes":[4,65533,0,0,0,0,0],"steps":6,"version":1}"#,
            "refused 8 65537\n",
        ),
        (
            r#"{"main":0,"sizes":[8,9,1,0,0,0,0],"steps":65537,"version":1}"#,
            "refused 9 65537\n",
        ),
    ] {
        let file = with_metadata(rt.alloc(), FIVE, text.as_bytes())?;
        expect_line(&rt, &answer(&rt, "replay", file)?, line);
    }
    Ok(())
}
