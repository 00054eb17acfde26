//! The texts and words of the first test, and the first refusals, are worked examples; the rest follows from the rules.

use cairo_model::End;
use casm_text::{AsmRefusal, Code, assemble, listing};
use std::alloc::{AllocError, Global};
use std::test::Fail;

// What assembling the text gives; none where memory fails.
fn assembled(alloc: Global, text: &str) -> Option<Result<Code, AsmRefusal>> {
    if text.len() > 1 << 24 {
        return None;
    }
    match assemble(alloc, text) {
        Ok(code) => Some(Ok(code)),
        Err(End::Refused(refusal)) => Some(Err(refusal)),
        Err(End::OutOfMemory) => None,
    }
}

// The refusal of a text, if it is refused.
fn refusal(alloc: Global, text: &str) -> Option<AsmRefusal> {
    match assembled(alloc, text) {
        Some(Err(refusal)) => Some(refusal),
        _ => None,
    }
}

#[test]
fn texts_their_words_and_their_listings(rt: HostRuntime) -> Result<(), Fail> {
    let rows: [(&str, &[u64], u64, &str); 4] = [
        (
            "// Writes the number 5 to its output segment and returns.\n// When it begins, [fp-5], [fp-4] and [fp-3] are the pointers to outputs, range cells and hash instances;\n// when it returns, the last three cells below ap are these pointers, moved on by what was used.\nmain:\n[ap] = 5, ap++           // a cell with the number 5\n[ap-1] = [[fp-5]]        // the first output is that number\n[ap] = [fp-5] + 1, ap++  // one output was written\n[ap] = [fp-4], ap++\n[ap] = [fp-3], ap++\nret\n",
            &[
                0x480680017fff8000,
                5,
                0x400280007ffb7fff,
                0x482680017ffb8000,
                1,
                0x480a7ffc7fff8000,
                0x480a7ffd7fff8000,
                0x208b7fff7fff7ffe,
            ],
            0,
            "[ap] = 5, ap++\n[ap-1] = [[fp-5]]\n[ap] = [fp-5] + 1, ap++\n[ap] = [fp-4], ap++\n[ap] = [fp-3], ap++\nret\n",
        ),
        (
            "// Counts three rounds down to 0, copying a cell in each round, and writes that cell, which is 1.\n[ap] = 1, ap++\n[ap] = 1, ap++\n[ap] = 3, ap++            // the rounds that are left\nloop:\n[ap] = [ap-2], ap++\n[ap] = [ap-3], ap++\n[ap] = [ap-3] + -1, ap++  // one round less\njmp loop if [ap-1] != 0\n[ap-3] = [[fp-5]]         // the output\n[ap] = [fp-5] + 1, ap++\n[ap] = [fp-4], ap++\n[ap] = [fp-3], ap++\nret\n",
            &[
                0x480680017fff8000,
                1,
                0x480680017fff8000,
                1,
                0x480680017fff8000,
                3,
                0x48127ffe7fff8000,
                0x48127ffd7fff8000,
                0x482480017ffd8000,
                0xffffffff00000000,
                0x20680017fff7fff,
                0xfffffffefffffffd,
                0x400280007ffb7ffd,
                0x482680017ffb8000,
                1,
                0x480a7ffc7fff8000,
                0x480a7ffd7fff8000,
                0x208b7fff7fff7ffe,
            ],
            0,
            "[ap] = 1, ap++\n[ap] = 1, ap++\n[ap] = 3, ap++\n[ap] = [ap-2], ap++\n[ap] = [ap-3], ap++\n[ap] = [ap-3] + 18446744069414584320, ap++\njmp rel 18446744069414584317 if [ap-1] != 0\n[ap-3] = [[fp-5]]\n[ap] = [fp-5] + 1, ap++\n[ap] = [fp-4], ap++\n[ap] = [fp-3], ap++\nret\n",
        ),
        (
            "[ap] = [fp-5], ap++\n[ap] = [fp-5], ap++\n[ap] = [fp-4], ap++\n[ap] = [fp-3], ap++\nret\n",
            &[
                0x480a7ffb7fff8000,
                0x480a7ffb7fff8000,
                0x480a7ffc7fff8000,
                0x480a7ffd7fff8000,
                0x208b7fff7fff7ffe,
            ],
            0,
            "[ap] = [fp-5], ap++\n[ap] = [fp-5], ap++\n[ap] = [fp-4], ap++\n[ap] = [fp-3], ap++\nret\n",
        ),
        (
            "[ap] = 18, ap++\ncall skip_1\njmp rel 4\nword 7777386946776948100\nword 9179635523281987588\n[ap] = [fp-5], ap++\n[ap] = [fp-4], ap++\n[ap] = [fp-3], ap++\nret\nskip_1:\n[ap] = 0, ap++\nret\n",
            &[
                0x480680017fff8000,
                18,
                0x1104800180018000,
                10,
                0x10780017fff7fff,
                4,
                0x6beed438c3665d84,
                0x7f649ddf64c7a804,
                0x480a7ffb7fff8000,
                0x480a7ffc7fff8000,
                0x480a7ffd7fff8000,
                0x208b7fff7fff7ffe,
                0x480680017fff8000,
                0,
                0x208b7fff7fff7ffe,
            ],
            0,
            "[ap] = 18, ap++\ncall rel 10\njmp rel 4\nword 7777386946776948100\nword 9179635523281987588\n[ap] = [fp-5], ap++\n[ap] = [fp-4], ap++\n[ap] = [fp-3], ap++\nret\n[ap] = 0, ap++\nret\n",
        ),
    ];
    for (text, words, main, listed) in rows {
        match assembled(rt.alloc(), text) {
            Some(Ok(code)) => {
                assert_eq!(rt; code.words.as_slice(), words, "{text}");
                assert_eq!(rt; code.main, main, "{text}");
                assert_eq!(rt; listing(rt.alloc(), &code)?.as_str(), listed, "{text}");
            }
            _ => assert!(rt; false, "{text}"),
        }
    }
    Ok(())
}

#[test]
fn one_way_to_write_a_line_or_another(rt: HostRuntime) -> Result<(), Fail> {
    let rows: [(&str, &[u64], u64); 7] = [
        ("", &[], 0),
        ("// nothing\n\n  \n", &[], 0),
        ("[ ap ]=007 ,ap ++//x", &[0x480680017fff8000, 7], 0),
        (
            "word -1\nmain :\nword -0018446744069414584320",
            &[0xffffffff00000000, 1],
            1,
        ),
        ("jmp abs[ap-0],ap++", &[0x089380007fff7fff], 0),
        (
            "jmp a\na:\ncall a",
            &[0x010780017fff7fff, 2, 0x1104800180018000, 0],
            0,
        ),
        (
            "main:\na:\nb:\njmp b if [fp-32768] != 0",
            &[0x020780017fff0000, 0],
            0,
        ),
    ];
    for (text, words, main) in rows {
        match assembled(rt.alloc(), text) {
            Some(Ok(code)) => {
                assert_eq!(rt; code.words.as_slice(), words, "{text}");
                assert_eq!(rt; code.main, main, "{text}");
            }
            _ => assert!(rt; false, "{text}"),
        }
    }
    Ok(())
}

#[test]
fn refusals_with_their_least_lines(rt: HostRuntime) {
    let rows: [(&str, AsmRefusal); 15] = [
        (
            "Z9:\ncall rel 5\n[ap] = [[ap-32768]-1]\n// note\nx_1:\n//\nZ9:\njmp Z9 if [ap-1] != 0, ap++\n[ap] = [[ap-1]+7]\ncall abs 66217897225113284\n",
            AsmRefusal::Label(7),
        ),
        (
            "jmp gone\njmp abs -18446744069414584320\n[ap+2] = [ap+5] + -1\n[fp-5] = [ap+2] + [fp], ap++\nmain:\nret\n//[ap] = é\nloop:\napx:\n",
            AsmRefusal::Label(1),
        ),
        (
            "if_:\ncall abs -0\n[fp] = 1, ap++\n//[ap] = é",
            AsmRefusal::Range(2),
        ),
        (
            "main:\nN0:\na:\nap += [fp+5]\njmp gone if [ap+40000] != 0\n\nb:\ncall abs 4294967296\njmp rel 4294967296 if [fp] != 0, ap++\njmp rel 5, ap++//\njmp N0 if [ap+2] != 0, ap++",
            AsmRefusal::Label(5),
        ),
        (
            "loop:\nword\nN0:\njmp loop\n[ap+5] = [ap+32767]\nif_:\n//[ap] = é\n//",
            AsmRefusal::Syntax(2),
        ),
        (
            "word -18446744069414584321\nN0:\n[fp-32768] = [ap] + -18446744069414584320\njmp gone\nx_1:\n5 = [ap]\n[fp-5] = [[fp-0]-0]\n[fp-32768] = [ap+2] + 1",
            AsmRefusal::Syntax(6),
        ),
        ("a:\nret\na:\n", AsmRefusal::Label(3)),
        ("jmp a\nb:\nb:\n", AsmRefusal::Label(1)),
        ("[ap+40000] = 1\njmp a\n", AsmRefusal::Label(2)),
        ("ret\n[ap+40000] = 1\nword -0\n", AsmRefusal::Range(2)),
        ("[ap] = [ap+32768]", AsmRefusal::Range(1)),
        ("word 18446744069414584321\n", AsmRefusal::Range(1)),
        ("word 18446744073709551616\n", AsmRefusal::Range(1)),
        ("ret\n\tret\n", AsmRefusal::Syntax(2)),
        ("ret\r\nret\r\n", AsmRefusal::Syntax(1)),
    ];
    for (text, wanted) in rows {
        assert!(rt; refusal(rt.alloc(), text) == Some(wanted), "{text}");
    }
}

// The piece so many times.
fn repeated(alloc: Global, piece: &str, count: usize) -> Result<String, AllocError> {
    let mut text = String::new(alloc);
    for _ in 0..count {
        text.push_str(piece)?;
    }
    Ok(text)
}

#[test]
fn one_word_too_many(rt: HostRuntime) -> Result<(), Fail> {
    let mut text = repeated(rt.alloc(), "ret\n", 65_536)?;
    assert!(rt; refusal(rt.alloc(), text.as_str()).is_none());
    text.push_str("\nret\nret\n")?;
    assert!(rt; refusal(rt.alloc(), text.as_str()) == Some(AsmRefusal::Range(65_538)));
    Ok(())
}

#[test]
fn long_lines(rt: HostRuntime) -> Result<(), Fail> {
    let mut digits = String::new(rt.alloc());
    digits.push_str("word 1")?;
    digits.push_str(repeated(rt.alloc(), "0", 10_000)?.as_str())?;
    assert!(rt; refusal(rt.alloc(), digits.as_str()) == Some(AsmRefusal::Range(1)));
    let names = repeated(rt.alloc(), "word ", 10_000)?;
    assert!(rt; refusal(rt.alloc(), names.as_str()) == Some(AsmRefusal::Syntax(1)));
    Ok(())
}
