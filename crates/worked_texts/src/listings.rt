//! The words and the lines of the first two tests are worked examples; the others were told by a listing in Python that
//! shares nothing with this one.

use cairo_model::End;
use casm_text::{AsmRefusal, Code, assemble, listing};
use std::alloc::{AllocError, Global};
use std::test::Fail;

// The listing of these words, none where one isn't below the prime.
fn listed(alloc: Global, words: &[u64]) -> Result<Option<String>, AllocError> {
    let Some(code) = Code::new(words.to_vec(alloc)?, 0) else {
        return Ok(None);
    };
    Ok(Some(listing(alloc, &code)?))
}

#[test]
fn a_program_that_writes_five(rt: HostRuntime) {
    let words = [
        0x480680017fff8000,
        5,
        0x400280007ffb7fff,
        0x482680017ffb8000,
        1,
        0x480a7ffc7fff8000,
        0x480a7ffd7fff8000,
        0x208b7fff7fff7ffe,
    ];
    let text =
        "[ap] = 5, ap++\n[ap-1] = [[fp-5]]\n[ap] = [fp-5] + 1, ap++\n[ap] = [fp-4], ap++\n[ap] = [fp-3], ap++\nret\n";
    match listed(rt.alloc(), &words) {
        Ok(Some(listed)) => assert_eq!(rt; listed.as_str(), text),
        _ => assert!(rt; false, "no listing"),
    }
}

#[test]
fn one_statement_for_its_words(rt: HostRuntime) {
    let rows: [(&[u64], &str); 12] = [
        (&[0x1104800180018000, 7], "call rel 7\n"),
        (&[0x040780017fff7fff, 7], "ap += 7\n"),
        (&[0x010780017fff7fff, 0], "jmp rel 0\n"),
        (
            &[0x482480017ffd8000, 0xffffffff00000000],
            "[ap] = [ap-3] + 18446744069414584320, ap++\n",
        ),
        (
            &[0x020680017fff7fff, 0xfffffffefffffffd],
            "jmp rel 18446744069414584317 if [ap-1] != 0\n",
        ),
        // no statement has this word without its number
        (&[0x480680017fff8000], "word 5189976364521848832\n"),
        // a number that no statement begins with
        (&[7], "word 7\n"),
        (&[0x400280027ffb7fff], "[ap-1] = [[fp-5]+2]\n"),
        (&[], ""),
        (&[0x48527fff7fff8000], "[ap] = [fp-1] * [ap-1], ap++\n"),
        (&[0x008b7fff7fff7fff], "jmp abs [fp-1]\n"),
        (&[0x1084800180018000, 9], "call abs 9\n"),
    ];
    for (words, text) in rows {
        match listed(rt.alloc(), words) {
            Ok(Some(listed)) => assert_eq!(rt; listed.as_str(), text),
            _ => assert!(rt; false, "no listing"),
        }
    }
}

#[test]
fn no_code_has_the_prime(rt: HostRuntime) {
    match listed(rt.alloc(), &[0xffffffff00000001]) {
        Ok(None) => {}
        _ => assert!(rt; false, "a listing"),
    }
}

// Whether the line keeps the rule of syntax: spells an empty line, a label or a statement.
fn is_line(alloc: Global, line: &str) -> Option<bool> {
    if line.len() > 1 << 24 {
        return None;
    }
    match assemble(alloc, line) {
        Err(End::Refused(AsmRefusal::Syntax(_))) => Some(false),
        Err(End::OutOfMemory) => None,
        _ => Some(true),
    }
}

#[test]
fn lines_that_are_in_the_grammar(rt: HostRuntime) {
    let lines = [
        "[ap] = -18446744065587290719, ap++",
        "[ap-1] = [[fp-3]+46]",
        "ret//x: y //",
        "call abs [fp+1]",
        "[ap] = [ap-1] * -18446744069414584258, ap++",
        "if_:",
        "call aX93",
        "jmp aX91 if [ap-1] != 0",
        "[ap+007] = 5",
        "[ap+2] = [[fp-1]+7]",
        "[fp-32768] = [[fp-5]], ap++",
        "ap += 66000",
        "jmp rel [ap-1], ap++",
        "word -1",
        "jmp loop if [ap+0] != 0, ap++",
        "[ap]=[ap]+[ap]",
        "ap+=5",
        "jmp rel 5if [ap]!=0",
        "jmp x if [ap] != 0,ap++",
        "jmp x,ap ++",
        "word -0",
        "[ap-0]=1",
        "[ap] = [[fp-5] - 2], ap++",
        "a_1:",
        "a :",
        "a: // c",
        "// x",
        "word-5",
        "[ap] = - 5",
        "[ ap - 3 ] = [ fp + 2 ]",
        "  ",
        "",
        "ap += [fp-3]",
        "call rel -1",
        "jmp rel 5 , ap ++",
    ];
    for line in lines {
        assert!(rt; is_line(rt.alloc(), line) == Some(true), "{line}");
    }
}

#[test]
fn lines_that_are_not_in_the_grammar(rt: HostRuntime) {
    let lines = [
        "call 5",
        "call abs",
        "jmp rel 5 if [ap] != 00",
        "[ap] = 5, ap++, ap++",
        "fp += 5",
        "[5] = 5",
        "5 = [ap]",
        "jmp:",
        "[ap] = [[[ap]]]",
        "[ap] = 5 if",
        "jmp rel 5 if [ap] ! = 0",
        "_x:",
        "call",
        "ret 5",
        "[ap] = 0x10",
        "word +5",
        "jmp if",
        "ap += x",
        "[ap] = --5",
        "[ap] = 5u64",
        "[bp] = 5",
        "jmp [ap]",
        "word [ap]",
        "ap + = 5",
        "callrel 5",
        "word 5 5",
        "AP += 1",
        "[ap] = 5 * 5",
        "word:",
        "jmp rel 5, ap++ if [ap] != 0",
        "ret ret",
        "foo",
        "[ap] = [ap] + + 5",
        "[ap]=[ap]++1",
        "jmp abs 5 if [ap] != 0",
        "jmp x, ap + +",
        "call x, ap++",
        "ret, ap++",
        "[ap+-1]=1",
        "[ap] = [[ap]+[ap]]",
        "[ap] = [[fp-5]] + 1",
        "[ap] = 5 + [ap]",
        "ap:",
        "_a:",
        "main: ret",
        "/ ret",
        "ret / y",
        "jmprel 5",
        "word5",
        "call abs x",
        "jmp rel x",
        "jmp ret",
        "x y:",
        ":",
        "[ap] == 1",
        "[sp] = 1",
        "[ap] = [ap] - 1",
        "jmp -1",
        "call -1",
        "ap++",
        "word",
        "word x",
        "jmp rel 5 if [ap] = 0",
    ];
    for line in lines {
        assert!(rt; is_line(rt.alloc(), line) == Some(false), "{line}");
    }
}

#[test]
fn listings_of_odd_words(rt: HostRuntime) {
    let rows: [(&[u64], &str); 16] = [
        (
            &[
                6967772308836450303,
                4025232898008317952,
                725783238185844735,
                4625337556945436674,
            ],
            "word 6967772308836450303\nword 4025232898008317952\njmp rel [ap+2] if [ap+32767] != 0, ap++\n[ap+2] = [ap+1] + [ap]\n",
        ),
        (
            &[
                4613797087195136002,
                4626041239470931967,
                4632374422773334016,
                4616893311938953221,
            ],
            "[fp+2] = 4626041239470931967\n[fp] = [ap+2] * [fp-2]\n[ap+5] = [ap+1]\n",
        ),
        (
            &[
                74168662805676031,
                7723814102723788799,
                1274940900568569405,
                5198983563776786432,
                5191102268723658752,
            ],
            "jmp rel 7723814102723788799\nword 1274940900568569405\n[ap] = [fp+2] + 5191102268723658752, ap++\n",
        ),
        (
            &[
                5199265040497868801,
                4613515612218425344,
                4617034040837373957,
            ],
            "[fp+1] = [fp+26619] + 4613515612218425344, ap++\n[ap+5] = [ap+32767]\n",
        ),
        (
            &[9128092780860735487, 74168662805676031],
            "word 9128092780860735487\nword 74168662805676031\n",
        ),
        (&[6843923334116114431], "word 6843923334116114431\n"),
        (&[1191342836780466176], "call abs [fp-1]\n"),
        (
            &[8168544568074141697, 73746446868054018],
            "word 8168544568074141697\nword 73746446868054018\n",
        ),
        (
            &[725923962789265408, 8125478898784829438],
            "jmp rel [ap+32767] if [ap] != 0, ap++\nword 8125478898784829438\n",
        ),
        (
            &[
                9037176341908258816,
                5060731126664003583,
                5191258618418117250,
                293859873538408447,
            ],
            "word 9037176341908258816\nword 5060731126664003583\n[fp-17790] = [fp-29131], ap++\nap += [ap+32767]\n",
        ),
        (
            &[
                4732298043800453118,
                2345108766317314046,
                4230127645486639253,
                7312016218238451711,
            ],
            "word 4732298043800453118\nret\nword 4230127645486639253\nword 7312016218238451711\n",
        ),
        (&[4625953136271917061], "[ap+5] = [fp-17641] + [ap+12254]\n"),
        (
            &[
                8363325239072882687,
                5,
                4612389701574230021,
                3371648014971207678,
                4201154769189830661,
            ],
            "word 8363325239072882687\nword 5\n[ap+5] = [[fp-32768]-1]\nword 3371648014971207678\nword 4201154769189830661\n",
        ),
        (
            &[
                4613515612218392576,
                615726522291945471,
                7187182055984463871,
                615867246895398911,
                5703245980258795520,
            ],
            "[ap-32768] = 615726522291945471\nword 7187182055984463871\njmp abs [fp+32767], ap++\nword 5703245980258795520\n",
        ),
        (
            &[2345108766317314046, 3906872674596388869],
            "ret\nword 3906872674596388869\n",
        ),
        (
            &[
                4615204449193721858,
                4616893311938953217,
                4612108239482355717,
                4632960393751658501,
                4616611834814726144,
            ],
            "word 4615204449193721858\n[ap+1] = [ap+1]\n[fp+5] = [[ap+32767]+1]\n[fp+5] = [fp+5] * [fp+5358]\nword 4616611834814726144\n",
        ),
    ];
    for (words, text) in rows {
        match listed(rt.alloc(), words) {
            Ok(Some(listed)) => assert_eq!(rt; listed.as_str(), text),
            _ => assert!(rt; false, "no listing"),
        }
    }
}
