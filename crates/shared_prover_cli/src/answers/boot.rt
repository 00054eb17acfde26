ghost use Rattle.std.specs.Prelude.{◌≡◌, ◌++◌, IfOk, OnOk};
ghost use Rattle.shared_prover_cli.specs.Answers.Boot.{BootAnswer, word_digits as digits_of_word, word_line, word_lines as lines_of_words};
ghost use Rattle.shared_prover_cli.specs.Working.Replies.{reply_view};

use crate::reply::{Outcome, Reply};
use boot_program::{BOOT_ENTRY, boot_words};
use cairo_model::put_decimal;
use std::alloc::{AllocError, Global};

/// The hexadecimal digits of a word: two for each of its eight bytes.
const WORD_DIGITS: usize = 16;

/// The words of the bootloader, a line each.
pub fn boot_answer(alloc: Global) -> Result<Reply, AllocError>
    ensures { IfOk result (λ reply. BootAnswer (reply_view reply)) }
{
    let text = word_lines(alloc, boot_words())?;
    Ok(Reply {
        outcome: Outcome::Done,
        text,
    })
}

fn word_lines(alloc: Global, words: &[u64]) -> Result<Vec<u8>, AllocError>
    ensures { IfOk result (λ text. text.items ≡ lines_of_words words.now) }
{
    let mut text = Vec::new(alloc);
    for index in 0..words.len() {
        put_word(alloc, &mut text, BOOT_ENTRY + index as u64, words[index])?;
    }
    Ok(text)
}

fn put_word(alloc: Global, text: &mut Vec<u8>, address: u64, word: u64) -> Result<(), AllocError>
    ensures { OnOk result (text.new.items ≡ text.old.items ++ word_line (address, word)) }
{
    put_decimal(alloc, text, address)?;
    text.push(b' ')?;
    text.extend_from_slice(&word_digits(word))?;
    text.push(b'\n')?;
    Ok(())
}

fn word_digits(word: u64) -> [u8; WORD_DIGITS]
    ensures { result ≡ digits_of_word word }
{
    let mut digits = [0; WORD_DIGITS];
    let Ok(()) = hex::encode_to_slice(word.to_be_bytes(), &mut digits) else {
        unreachable!();
    };
    digits
}
