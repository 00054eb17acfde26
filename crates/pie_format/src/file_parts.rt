ghost use Rattle.std.specs.Prelude.{◌≡◌, ◌≤◌, ◌*◌, length, drop, option_map, IfOk, IfSome};
ghost use Rattle.std.specs.Int.{w16, w32, w64};
ghost use Rattle.cairo_model.specs.Pie.Files.{cell_size};
ghost use Rattle.cairo_model.specs.Working.Answers.{Gives};
ghost use Rattle.pie_format.specs.Working.Reading.{front, has_magic, counted as counted_parts, after_length as parts_after_length, whole_parts as all_parts, parts_at};

use cairo_model::limits::MOST_FILE_BYTES;
use cairo_model::{End, ReadRefusal};

/// Each PIE file begins with these eight bytes.
pub(crate) const MAGIC: [u8; 8] = [0x43, 0x50, 0x49, 0x45, 0x36, 0x34, 0x00, 0x01];

/// The bytes before the text of the metadata: the magic, and four of the length of the text.
const TEXT_START: usize = 12;

/// How many bytes a cell has in the file.
pub(crate) const CELL_BYTES: usize = 16;

/// The text of the metadata, the number of cells, and the bytes after that number.
pub(crate) fn file_parts(bytes: &[u8]) -> Result<(&[u8], u32, &[u8]), End<ReadRefusal>>
    ensures exact { Gives (λ x. record { text = x.0.now; count = x.1; rest = x.2.now }) result (parts_at bytes.now) }
    ensures enough { IfOk result (λ x. cell_size * x.1 ≤ length x.2.now) }
{
    if bytes.len() > MOST_FILE_BYTES {
        return Err(End::Refused(ReadRefusal::TooLong(bytes.len() as u64)));
    }
    if !begins_as_pie(bytes) {
        return Err(End::Refused(ReadRefusal::BadMagic));
    }
    match whole_parts(bytes) {
        Some(parts) => Ok(parts),
        None => Err(End::Refused(ReadRefusal::Truncated(bytes.len() as u64))),
    }
}

fn begins_as_pie(bytes: &[u8]) -> bool
    ensures { result ≡ has_magic bytes.now }
{
    let there = bytes.len().min(MAGIC.len());
    let (first, _) = bytes.split_at(there);
    MAGIC.as_slice().starts_with(first)
}

fn whole_parts(bytes: &[u8]) -> Option<(&[u8], u32, &[u8])>
    ensures exact { option_map (λ x. record { text = x.0.now; count = x.1; rest = x.2.now }) result ≡ all_parts bytes.now }
    ensures enough { IfSome result (λ x. cell_size * x.1 ≤ length x.2.now) }
{
    if bytes.len() < TEXT_START {
        return None;
    }
    let (_, rest) = bytes.split_at(MAGIC.len());
    let (len, rest) = number32(rest);
    after_length(len, rest)
}

fn after_length(len: u32, bytes: &[u8]) -> Option<(&[u8], u32, &[u8])>
    ensures exact { option_map (λ x. record { text = x.0.now; count = x.1; rest = x.2.now }) result ≡ parts_after_length len bytes.now }
    ensures enough { IfSome result (λ x. cell_size * x.1 ≤ length x.2.now) }
{
    let len = len as usize;
    if bytes.len() < len + 4 {
        return None;
    }
    let (text, rest) = bytes.split_at(len);
    let (count, rest) = number32(rest);
    counted(text, count, rest)
}

fn counted<'a>(text: &'a [u8], count: u32, rest: &'a [u8]) -> Option<(&'a [u8], u32, &'a [u8])>
    ensures exact { option_map (λ x. record { text = x.0.now; count = x.1; rest = x.2.now }) result ≡ counted_parts text.now count rest.now }
    ensures enough { IfSome result (λ x. cell_size * x.1 ≤ length x.2.now) }
{
    if rest.len() < CELL_BYTES * count as usize {
        None
    } else {
        Some((text, count, rest))
    }
}

/// The number that the first two bytes are, and the bytes after them.
pub(crate) fn number16(bytes: &[u8]) -> (u16, &[u8])
    requires { 2 ≤ length bytes.now }
    ensures value { result.0 ≡ front w16 bytes.now }
    ensures rest { result.1.now ≡ drop 2 bytes.now }
{
    let (first, rest) = bytes.split_at(2);
    (u16::from_be_bytes([first[0], first[1]]), rest)
}

pub(crate) fn number32(bytes: &[u8]) -> (u32, &[u8])
    requires { 4 ≤ length bytes.now }
    ensures value { result.0 ≡ front w32 bytes.now }
    ensures rest { result.1.now ≡ drop 4 bytes.now }
{
    let (first, rest) = bytes.split_at(4);
    (
        u32::from_be_bytes([first[0], first[1], first[2], first[3]]),
        rest,
    )
}

pub(crate) fn number64(bytes: &[u8]) -> (u64, &[u8])
    requires { 8 ≤ length bytes.now }
    ensures value { result.0 ≡ front w64 bytes.now }
    ensures rest { result.1.now ≡ drop 8 bytes.now }
{
    let (first, rest) = bytes.split_at(8);
    let number = u64::from_be_bytes([
        first[0], first[1], first[2], first[3], first[4], first[5], first[6], first[7],
    ]);
    (number, rest)
}
