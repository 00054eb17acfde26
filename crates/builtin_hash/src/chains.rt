//! The chain of a list of numbers.

ghost use Rattle.std.specs.Prelude.{◌≡◌, ◌*◌, ◌<◌, ◌^◌, length, slice_index};
ghost use Rattle.builtin_hash.specs.Chains.{chain_from, chain_of, chain_start, group_at};

use crate::instances::instance;

/// The words after one instance for each group of four numbers, the last group filled with zeros.
pub fn chain(list: &[u64]) -> [u32; 8]
    requires { length list.now < 2 ^ 32 }
    ensures { result ≡ chain_of list.now }
{
    continued(started(list.len() as u32), list)
}

// The words that the chain of this many numbers starts with.
pub(crate) fn started(count: u32) -> [u32; 8]
    ensures { result ≡ chain_start count }
{
    [0, 0, 0, 0, 0, 0, 0, count]
}

pub(crate) fn continued(start: [u32; 8], list: &[u64]) -> [u32; 8]
    ensures { result ≡ chain_from start list.now }
{
    let mut words = start;
    for k in 0..list.len().div_ceil(4) {
        let next = instance(words, group(list, k));
        words = next;
    }
    words
}

fn group(list: &[u64], k: usize) -> [u64; 4]
    requires { 4 * k < length list.now }
    ensures { result ≡ group_at list.now k }
{
    let first = 4 * k;
    [
        number(list, first),
        number(list, first + 1),
        number(list, first + 2),
        number(list, first + 3),
    ]
}

fn number(list: &[u64], place: usize) -> u64
    ensures { result ≡ slice_index list.now place }
{
    list.get(place).copied().unwrap_or(0)
}
