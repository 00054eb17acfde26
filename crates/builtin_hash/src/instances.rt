//! Hash instances.

ghost use Rattle.std.specs.Prelude.{◌≡◌, ◌+◌, ◌<◌, ◌^◌, ◌↔◌, IsTrue, All, length};
ghost use Rattle.builtin_hash.specs.Instances.{IsInstance, instance_of, message_of, words_of};
ghost use Rattle.sha2.specs.Sha256.{sha256, word_at};

use goldi_field::PRIME;
use sha2::{Digest, Sha256};

/// The cells of an instance: eight words and four field numbers that are hashed, and eight words of the digest.
pub const CELLS_PER_INSTANCE: usize = 20;

/// The eight words of the SHA-256 digest (FIPS 180-4) of eight words and four numbers, high byte
/// first throughout.
#[tactic(auto, unfolding(crate::specs::Instances::instance_of))]
pub fn instance(h: [u32; 8], d: [u64; 4]) -> [u32; 8]
    ensures { result ≡ instance_of h d }
{
    digest_words(hashed(h, d))
}

fn hashed(h: [u32; 8], d: [u64; 4]) -> [u8; 32]
    ensures { result ≡ sha256 (message_of h d) }
{
    let mut hasher = Sha256::new();
    for word in h {
        hasher.update(word.to_be_bytes());
    }
    for number in d {
        hasher.update(number.to_be_bytes());
    }
    hasher.finalize()
}

pub(crate) fn digest_words(digest: [u8; 32]) -> [u32; 8]
    ensures { result ≡ words_of digest }
{
    [
        word(&digest, 0),
        word(&digest, 4),
        word(&digest, 8),
        word(&digest, 12),
        word(&digest, 16),
        word(&digest, 20),
        word(&digest, 24),
        word(&digest, 28),
    ]
}

fn word(digest: &[u8; 32], at: usize) -> u32
    requires { at + 3 < 32 }
    ensures { result ≡ word_at digest.now at }
{
    u32::from_be_bytes([digest[at], digest[at + 1], digest[at + 2], digest[at + 3]])
}

/// Whether the cells are one instance: the eight words that are hashed, the four field numbers that
/// are hashed, and the eight words of the digest.
pub fn check_instance(cells: &[u64; CELLS_PER_INSTANCE]) -> bool
    ensures { IsTrue result ↔ IsInstance cells.now }
{
    let words = &cells[..8];
    let numbers = &cells[8..12];
    if !all_below(words, 1 << 32) {
        return false;
    }
    if !all_below(numbers, PRIME) {
        return false;
    }
    are_words(
        &cells[12..CELLS_PER_INSTANCE],
        instance(eight_words(words), four_numbers(numbers)),
    )
}

fn all_below(numbers: &[u64], limit: u64) -> bool
    ensures { IsTrue result ↔ All (λ n. n < limit) numbers.now }
{
    numbers.iter().all(|number| *number < limit)
}

fn eight_words(numbers: &[u64]) -> [u32; 8]
    requires eight { length numbers.now ≡ 8 }
    requires words { All (λ n. n < 2 ^ 32) numbers.now }
    ensures { result ≡ numbers.now }
{
    [
        numbers[0] as u32,
        numbers[1] as u32,
        numbers[2] as u32,
        numbers[3] as u32,
        numbers[4] as u32,
        numbers[5] as u32,
        numbers[6] as u32,
        numbers[7] as u32,
    ]
}

fn four_numbers(numbers: &[u64]) -> [u64; 4]
    requires { length numbers.now ≡ 4 }
    ensures { result ≡ numbers.now }
{
    [numbers[0], numbers[1], numbers[2], numbers[3]]
}

fn are_words(numbers: &[u64], words: [u32; 8]) -> bool
    ensures { IsTrue result ↔ (numbers.now ≡ words) }
{
    numbers == widened(words).as_slice()
}

fn widened(words: [u32; 8]) -> [u64; 8]
    ensures { result ≡ words }
{
    [
        u64::from(words[0]),
        u64::from(words[1]),
        u64::from(words[2]),
        u64::from(words[3]),
        u64::from(words[4]),
        u64::from(words[5]),
        u64::from(words[6]),
        u64::from(words[7]),
    ]
}
