ghost use Rattle.std.specs.Prelude.{◌≡◌, option_map};
ghost use Rattle.cert_format.specs.Reading.{has_magic as begins_with_magic, count_at as count_in, long_number_at as number_in};

/// Each certificate begins with these eight bytes.
pub(crate) const MAGIC: [u8; 8] = [0x43, 0x43, 0x52, 0x54, 0x36, 0x34, 0x00, 0x01];

/// How many bytes stand before the tasks: the magic, the kind, the spans and the number of tasks.
pub(crate) const FRONT_BYTES: usize = 61;

/// How many bytes the row of a task and the number of its bases have.
pub(crate) const MARK_BYTES: usize = 8;

/// How many bytes a base of a task's segment has.
pub(crate) const BASE_BYTES: usize = 8;

/// How many bytes a number of cells or states has.
pub(crate) const COUNT_BYTES: usize = 4;

/// How many bytes a cell has.
pub(crate) const CELL_BYTES: usize = 16;

/// How many bytes a state has.
pub(crate) const STATE_BYTES: usize = 24;

pub(crate) fn has_magic(bytes: &[u8]) -> bool
    ensures { result ≡ begins_with_magic bytes.now }
{
    let there = bytes.len().min(8);
    let (first, _) = bytes.split_at(there);
    MAGIC.as_slice().starts_with(first)
}

/// The number that the first four bytes are, and the bytes after them.
pub(crate) fn count_at(bytes: &[u8]) -> Option<(u32, &[u8])>
    ensures { option_map (λ x. (x.0, x.1.now)) result ≡ count_in bytes.now }
{
    if bytes.len() < 4 {
        return None;
    }
    let (first, rest) = bytes.split_at(4);
    Some((
        u32::from_be_bytes([first[0], first[1], first[2], first[3]]),
        rest,
    ))
}

pub(crate) fn number_at(bytes: &[u8]) -> Option<(u64, &[u8])>
    ensures { option_map (λ x. (x.0, x.1.now)) result ≡ number_in bytes.now }
{
    if bytes.len() < 8 {
        return None;
    }
    let (first, rest) = bytes.split_at(8);
    let number = u64::from_be_bytes([
        first[0], first[1], first[2], first[3], first[4], first[5], first[6], first[7],
    ]);
    Some((number, rest))
}
