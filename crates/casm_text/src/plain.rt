use cairo_word::Reg;
use goldi_field::Felt;

/// A cell by its register and its offset in cells.
#[derive(Clone, Copy)]
pub(crate) struct PlainCell {
    pub register: Reg,
    pub offset: i16,
}

/// A cell or a number.
#[derive(Clone, Copy)]
pub(crate) enum PlainOperand {
    Cell(PlainCell),
    Number(Felt),
}

/// The right side of `=`.
#[derive(Clone, Copy)]
pub(crate) enum PlainSource {
    Copy(PlainOperand),
    Double(PlainCell, i16),
    Sum(PlainCell, PlainOperand),
    Product(PlainCell, PlainOperand),
}

/// A statement whose offsets and numbers are known, with no label; a flag says whether `, ap++` stands at its end.
#[derive(Clone, Copy)]
pub(crate) enum PlainStatement {
    Assert(PlainCell, PlainSource, bool),
    Jump(PlainOperand, bool),
    JumpAbs(PlainOperand, bool),
    JumpIf(PlainOperand, PlainCell, bool),
    Call(PlainOperand),
    CallAbs(PlainOperand),
    Ret,
    AddAp(PlainOperand),
    Word(Felt),
}
