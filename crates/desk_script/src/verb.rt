ghost use Rattle.std.specs.Prelude.{◌≡◌};
ghost use Rattle.desk_script.specs.Lines.{verb_of as verb_in};

/// What a line begins with.
#[derive(Clone, Copy)]
pub(crate) enum Verb {
    Submit,
    Ask,
    Status,
    Settle,
}

/// The verb of these bytes, if they are one.
pub(crate) fn verb_of(text: &[u8]) -> Option<Verb>
    ensures { result ≡ verb_in text.now }
{
    if text == b"submit".as_slice() {
        Some(Verb::Submit)
    } else if text == b"ask".as_slice() {
        Some(Verb::Ask)
    } else if text == b"status".as_slice() {
        Some(Verb::Status)
    } else if text == b"settle".as_slice() {
        Some(Verb::Settle)
    } else {
        None
    }
}
