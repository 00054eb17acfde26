ghost use Rattle.cairo_word.specs.Word.{is_choice};
ghost use Rattle.std.specs.Prelude.{◌≡◌, true};

/// Where an instruction finds its operand op1: its source, and its offset from there.
#[derive(Clone, Copy)]
pub(crate) struct Op1 {
    pub source: u8,
    pub offset: i16,
    pub ghost choice: { is_choice source ≡ true },
}
