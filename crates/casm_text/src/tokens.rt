ghost use Rattle.casm_text.specs.Tokens.{before_comment as comment_cut, is_digit as digit_test, is_letter as letter_test, is_name_byte as name_byte_test, is_pair as pair_test};
ghost use Rattle.casm_text.specs.Working.Tokenizing.{most_tokens, goes_on as goes_on_test, whole_token, tokens_of_line};
ghost use Rattle.std.specs.Prelude.{◌≡◌, ◌<◌, ◌+◌, ◌^◌, ◌++◌, ◌==◌, IfOk, OnOk, map, take, if◌then◌else◌};

use std::alloc::{AllocError, Global};

// No statement has more tokens, so a line with one more is none, and the others need not be found.
const MOST_TOKENS: usize = 20;

/// The first tokens of a line, without its comment: all of them, or one more than a statement may have.
pub(crate) fn tokens<'a>(alloc: Global, line: &'a [u8]) -> Result<Vec<&'a [u8]>, AllocError>
    ensures { IfOk result (λ found. map (λ t. t.now) found.items ≡ take (most_tokens + 1) (tokens_of_line line.now)) }
{
    let code = before_comment(line);
    let mut found = Vec::new(alloc);
    let mut start = 0;
    let mut i = 0;
    while i < code.len() {
        if !goes_on(&code[start..i], code[i]) {
            end_token(&mut found, &code[start..i])?;
            if found.len() > MOST_TOKENS {
                return Ok(found);
            }
            start = next_start(code[i], i);
        }
        i += 1;
    }
    end_token(&mut found, &code[start..])?;
    Ok(found)
}

// Adds the token that is begun, if any.
fn end_token<'a>(found: &mut Vec<&'a [u8]>, begun: &'a [u8]) -> Result<(), AllocError>
    ensures { OnOk result (map (λ t. t.now) found.new.items ≡ map (λ t. t.now) found.old.items ++ whole_token begun.now) }
{
    if !begun.is_empty() {
        found.push(begun)?;
    }
    Ok(())
}

// Where the token begins that the byte c at i begins, or the next one after a space.
fn next_start(c: u8, i: usize) -> usize
    requires { i < 2 ^ 63 }
    ensures { result ≡ (if c == 32 then i + 1 else i) }
{
    if c == b' ' { i + 1 } else { i }
}

fn before_comment(line: &[u8]) -> &[u8]
    ensures { result.now ≡ comment_cut line.now }
{
    let mut i = 0;
    while i < line.len() {
        if line[i] == b'/' && i + 1 < line.len() && line[i + 1] == b'/' {
            return &line[..i];
        }
        i += 1;
    }
    line
}

// Whether the byte c goes on with the token that is begun.
fn goes_on(begun: &[u8], c: u8) -> bool
    ensures { result ≡ goes_on_test begun.now c }
{
    if begun.is_empty() {
        return false;
    }
    let first = begun[0];
    if is_letter(first) {
        is_name_byte(c)
    } else if is_digit(first) {
        is_digit(c)
    } else {
        begun.len() == 1 && is_pair(first, c)
    }
}

pub(crate) fn is_letter(c: u8) -> bool
    ensures { result ≡ letter_test c }
{
    c.is_ascii_alphabetic()
}

pub(crate) fn is_digit(c: u8) -> bool
    ensures { result ≡ digit_test c }
{
    c.is_ascii_digit()
}

pub(crate) fn is_name_byte(c: u8) -> bool
    ensures { result ≡ name_byte_test c }
{
    is_letter(c) || is_digit(c) || c == b'_'
}

fn is_pair(first: u8, c: u8) -> bool
    ensures { result ≡ pair_test first c }
{
    first == b'+' && (c == b'+' || c == b'=') || first == b'!' && c == b'='
}
