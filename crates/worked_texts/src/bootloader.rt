use crate::boot_text::BOOT_TEXT;
use boot_program::*;
use builtin_hash::{ProgramHash, program_hash};
use casm_text::assemble;

// The hash was made by a program that shares nothing with this one.
#[test]
fn the_words_have_this_hash(rt: HostRuntime) {
    let hash = b"51276e8750665a5d86fae68afdf1ec302962f4d976fd9b45c1613da135e26922";
    assert_eq!(rt;
        Some(program_hash(0, 7, boot_words())),
        ProgramHash::from_digits(hash)
    );
}

#[test]
fn each_call_of_a_task_has_its_word(rt: HostRuntime) {
    for (address, mask) in BOOT_CALLS {
        assert_eq!(rt; boot_words()[address as usize - 1], 0x1088_800f_8001_8000);
        assert_eq!(rt; mask, 7);
    }
}

#[test]
fn its_text_assembles_to_its_words(rt: HostRuntime) {
    if BOOT_TEXT.len() >= 65_536 {
        assert!(rt; false, "a long text");
        return;
    }
    match assemble(rt.alloc(), BOOT_TEXT) {
        Ok(code) => {
            assert_eq!(rt; code.words.as_slice(), boot_words());
            assert_eq!(rt; code.main, 0);
        }
        Err(_) => assert!(rt; false, "no code"),
    }
}
