ghost use Rattle.std.specs.Prelude.{◌≡◌, ◌∷◌, ◌==◌, Some, option_map};
ghost use Rattle.std.specs.List.{position_or_len, slice_split};
ghost use Rattle.desk_script.specs.Working.Reading.{ask_fields as ask_fields_in, one_in, parts_left, two_in};
ghost use Rattle.desk_script.specs.Working.Views.{ask_view};

use memchr::memchr;

pub(crate) const SPACE: u8 = b' ';

pub(crate) const LINE_FEED: u8 = b'\n';

/// What stands before the first such separator, and what follows it, if there is one.
pub(crate) fn cut(text: &[u8], separator: u8) -> (&[u8], Option<&[u8]>)
    ensures { slice_split (λ c. c == separator) text.now ≡ result.0.now ∷ parts_left separator result.1 }
{
    let end = first_at(text, separator);
    if end < text.len() {
        (&text[..end], Some(&text[end + 1..]))
    } else {
        (text, None)
    }
}

// Where the first such byte stands, the length where there is none.
fn first_at(text: &[u8], byte: u8) -> usize
    ensures { result ≡ position_or_len (λ c. c == byte) text.now }
{
    memchr(byte, text).unwrap_or(text.len())
}

/// The field that is left, if just one is.
pub(crate) fn one_field(fields: Option<&[u8]>) -> Option<&[u8]>
    ensures { option_map (λ field. field.now) result ≡ one_in (parts_left 32 fields.entry) }
{
    let fields = fields?;
    let (field, more) = cut(fields, SPACE);
    match more {
        Some(_) => None,
        None => Some(field),
    }
}

/// The two fields that are left, if just two are.
pub(crate) fn two_fields(fields: Option<&[u8]>) -> Option<(&[u8], &[u8])>
    ensures { option_map (λ pair. (pair.0.now, pair.1.now)) result ≡ two_in (parts_left 32 fields.entry) }
{
    let fields = fields?;
    let (first, more) = cut(fields, SPACE);
    let second = one_field(more)?;
    Some((first, second))
}

/// The fields of a line that asks, after its verb.
#[derive(Clone, Copy)]
pub(crate) struct AskFields<'a> {
    pub client: &'a [u8],
    pub hash: &'a [u8],
    /// Those that follow, if any does.
    pub outputs: Option<&'a [u8]>,
}

/// The fields that are left, if they are two or more.
pub(crate) fn ask_fields(fields: Option<&[u8]>) -> Option<AskFields<'_>>
    ensures { option_map ask_view result ≡ ask_fields_in (parts_left 32 fields.entry) }
{
    let fields = fields?;
    let (client, more) = cut(fields, SPACE);
    let more = more?;
    let (hash, outputs) = cut(more, SPACE);
    Some(AskFields {
        client,
        hash,
        outputs,
    })
}
