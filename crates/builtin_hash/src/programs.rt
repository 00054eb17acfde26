//! Program hashes.

ghost use Rattle.std.specs.Prelude.{◌≡◌, ◌-◌, ◌<◌, ◌^◌, ◌↔◌, ℕ, Some, IsSome, IfSome, length, map, slice_index};
ghost use Rattle.std.specs.Int.{w32, to_be_bytes};
ghost use Rattle.std.specs.List.{AllPass};
ghost use Rattle.hex.specs.Hex.{is_hex_digit};
ghost use Rattle.builtin_hash.specs.Programs.{hash_bytes, hash_digits, hash_text, program_hash_of, words_in_text};

use crate::chains::{continued, started};
use crate::instances::{digest_words, instance};
use hex::FromHex;
use std::{fmt, str};

/// The hexadecimal digits of a hash: two for each of its 32 bytes.
pub const HASH_DIGITS: usize = 64;

/// The hash of a program under a mask. It is ordered by its words.
#[derive(Clone, Copy, Debug, PartialEq, Eq, PartialOrd, Ord, Hash)]
pub struct ProgramHash {
    pub words: [u32; 8],
    pub ghost eight: { length words ≡ 8 },
    pub ghost fit: { (k : ℕ) → slice_index words k < 2 ^ 32 },
}

/// The hash of a program: the chain of 1, its entry, its length, the mask of its builtins, and its
/// code.
pub fn program_hash(main: u64, mask: u64, code: &[u64]) -> ProgramHash
    requires { length code.now < 2 ^ 32 - 4 }
    ensures { result.words ≡ program_hash_of main mask code.now }
{
    let count = code.len() as u32 + 4;
    let header = [1, main, code.len() as u64, mask];
    let words = continued(instance(started(count), header), code);
    ProgramHash { words }
}

impl ProgramHash {
    /// The hash as `HASH_DIGITS` lower-case hexadecimal digits in ASCII, eight for each word.
    pub fn digits(&self) -> [u8; HASH_DIGITS]
        ensures { result ≡ hash_text self.now.words }
    {
        let mut digits = [0; HASH_DIGITS];
        let Ok(()) = hex::encode_to_slice(self.bytes(), &mut digits) else {
            unreachable!();
        };
        digits
    }

    /// Reads `HASH_DIGITS` hexadecimal digits of either case, eight for each word.
    pub fn from_digits(text: &[u8]) -> Option<ProgramHash>
        ensures found { IsSome result ↔ ((length text.now ≡ hash_digits) × AllPass is_hex_digit text.now) }
        ensures value { IfSome result (λ hash. hash.words ≡ words_in_text text.now) }
    {
        match <[u8; 32] as FromHex>::from_hex(text) {
            Ok(bytes) => {
                let words = digest_words(bytes);
                Some(ProgramHash { words })
            }
            Err(_) => None,
        }
    }

    // The words' bytes, high byte first.
    fn bytes(&self) -> [u8; 32]
        ensures { result ≡ hash_bytes self.now.words }
    {
        let mut bytes = [0; 32];
        bytes.copy_from_slice(word_bytes(&self.words).as_flattened());
        bytes
    }
}

impl fmt::Display for ProgramHash {
    ghost output = { λ hash. Some (hash_text hash.words) };

    fn fmt<W: fmt::Write>(&self, f: &mut fmt::Formatter<W>) -> fmt::Result {
        let digits = self.digits();
        let Ok(text) = str::from_utf8(&digits) else {
            unreachable!();
        };
        f.write_str(text)
    }
}

fn word_bytes(words: &[u32]) -> [[u8; 4]; 8]
    requires { length words.now ≡ 8 }
    ensures { result ≡ map (to_be_bytes w32) words.now }
{
    let mut pieces = [[0; 4]; 8];
    for place in 0..8 {
        pieces[place] = words[place].to_be_bytes();
    }
    pieces
}
