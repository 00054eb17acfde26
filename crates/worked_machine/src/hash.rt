ghost use Rattle.std.specs.Prelude.{◌≡◌, ◌↔◌, IsTrue};
ghost use Rattle.std.specs.Ordering.{nat_cmp};
ghost use Rattle.std.specs.Cmp.Lexicographic.{slice_cmp};

use builtin_hash::*;
use std::cmp::Ordering;
use std::test::Fail;

// The words of EMPTY's program, and of FIVE's.
const EMPTY: [u64; 4] = [
    0x480a7ffb7fff8000,
    0x480a7ffc7fff8000,
    0x480a7ffd7fff8000,
    0x208b7fff7fff7ffe,
];

const FIVE: [u64; 8] = [
    0x480680017fff8000,
    5,
    0x400280007ffb7fff,
    0x482680017ffb8000,
    1,
    0x480a7ffc7fff8000,
    0x480a7ffd7fff8000,
    0x208b7fff7fff7ffe,
];

// Cells 12 to 19 of the instance whose other cells are 0.
const DIGEST_OF_ZEROS: [u32; 8] = [
    0xf5a5fd42, 0xd16a2030, 0x2798ef6e, 0xd309979b, 0x43003d23, 0x20d9f0e8, 0xea9831a9, 0x2759fb4b,
];

// The first is 64 zero bytes, the second a message of 512 bits of NIST's CAVP (SHA256ShortMsg).
#[test]
fn instances_give_the_digests_of_published_messages(rt: HostRuntime) {
    assert_eq!(rt; instance([0; 8], [0; 4]), DIGEST_OF_ZEROS);
    let h = [
        0x5a86b737, 0xeaea8ee9, 0x76a0a24d, 0xa63e7ed7, 0xeefad18a, 0x101c1211, 0xe2b3650c,
        0x5187c2a8,
    ];
    let d = [
        0xa650547208251f6d,
        0x4237e661c7bf4c77,
        0xf335390394c37fa1,
        0xa9f9be836ac28509,
    ];
    let expected = [
        0x42e61e17, 0x4fbb3897, 0xd6dd6cef, 0x3dd2802f, 0xe67b3319, 0x53b06114, 0xa65c7728,
        0x59dfc1aa,
    ];
    assert_eq!(rt; instance(h, d), expected);
}

#[test]
fn an_instance_has_words_and_field_numbers_and_their_digest(rt: HostRuntime) {
    let mut cells = [0u64; 20];
    assert!(rt; !check_instance(&cells));
    for (place, word) in DIGEST_OF_ZEROS.iter().enumerate() {
        cells[12 + place] = u64::from(*word);
    }
    assert!(rt; check_instance(&cells));
    for (place, number) in [
        (0, 4294967296),
        (7, 4294967296),
        (8, 18446744069414584321),
        (19, 0x2759fb4a),
    ] {
        let mut changed = cells;
        changed[place] = number;
        assert!(rt; !check_instance(&changed), "{place}");
    }
}

// The expected words are those of Python's hashlib over the groups.
#[test]
fn a_chain_hashes_groups_of_four(rt: HostRuntime) {
    let five = [1, 2, 3, 4, 5];
    assert_eq!(rt; chain(&[]), [0; 8]);
    assert_eq!(rt;
        chain(&five[..4]),
        [
            0x295f3e8d, 0x73bb24ed, 0xebdd83fa, 0x7014f325, 0x814f6baf, 0x6258d628, 0x620f7782,
            0x9e6d33b4,
        ]
    );
    assert_eq!(rt;
        chain(&five),
        [
            0xe8e3f8d1, 0xf2e8c14f, 0xf27221ed, 0xae019149, 0x2b78ee93, 0x03e52bb3, 0xcf80251c,
            0xb1e505ae,
        ]
    );
}

#[test]
fn the_programs_of_empty_and_five_have_their_hashes(rt: HostRuntime) -> Result<(), Fail> {
    let empty = program_hash(0, 7, &EMPTY).to_string(rt.alloc())?;
    assert_eq!(rt;
        empty.as_str(),
        "4ae2a31bf9da6dec8e814ee65e6495560d58ecd3a1727ee49e5279ace5919187"
    );
    let five = program_hash(0, 7, &FIVE).to_string(rt.alloc())?;
    assert_eq!(rt;
        five.as_str(),
        "644b2c86fee53a4ad40c21efa0e8524e34c75966cf12fcbfe5a3ae40d0a8bcbd"
    );
    Ok(())
}

#[test]
fn digits_of_either_case_read_back(rt: HostRuntime) {
    let hash = program_hash(0, 7, &EMPTY);
    assert_eq!(rt; ProgramHash::from_digits(&hash.digits()), Some(hash));
    let upper = b"4AE2A31BF9DA6DEC8E814EE65E6495560D58ECD3A1727EE49E5279ACE5919187";
    assert_eq!(rt; ProgramHash::from_digits(upper), Some(hash));
    assert_eq!(rt; ProgramHash::from_digits(&upper[..63]), None);
    assert_eq!(rt; ProgramHash::from_digits(b"g"), None);
}

// What the derived comparisons answer.
fn order_of(a: &ProgramHash, b: &ProgramHash) -> Ordering
    ensures { result ≡ slice_cmp nat_cmp a.now.words b.now.words }
{
    a.cmp(b)
}

fn are_equal(a: &ProgramHash, b: &ProgramHash) -> bool
    ensures { IsTrue result ↔ (a.now.words ≡ b.now.words) }
{
    a == b
}

#[test]
fn hashes_are_ordered_by_their_words(rt: HostRuntime) {
    let empty = program_hash(0, 7, &EMPTY);
    let five = program_hash(0, 7, &FIVE);
    assert_eq!(rt; order_of(&empty, &five), Ordering::Less);
    assert!(rt; are_equal(&five, &five));
    assert!(rt; !are_equal(&empty, &five));
}

#[test]
fn the_laws_need_nothing_of_their_caller() {
    laws::instance_laws();
    laws::chain_laws();
    laws::program_hash_laws();
}
