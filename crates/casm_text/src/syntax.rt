use cairo_word::Reg;

/// An offset of a cell, as it is spelled.
#[derive(Clone, Copy)]
pub(crate) enum Offset<'a> {
    None,
    Plus(&'a [u8]),
    Minus(&'a [u8]),
}

/// `[ap]`, `[fp+2]`, `[ap-1]`.
#[derive(Clone, Copy)]
pub(crate) struct Cell<'a> {
    pub register: Reg,
    pub offset: Offset<'a>,
}

#[derive(Clone, Copy)]
pub(crate) enum Numeral<'a> {
    Positive(&'a [u8]),
    Negative(&'a [u8]),
}

#[derive(Clone, Copy)]
pub(crate) enum Operand<'a> {
    Cell(Cell<'a>),
    Numeral(Numeral<'a>),
}

/// The right side of `=`.
#[derive(Clone, Copy)]
pub(crate) enum Source<'a> {
    Copy(Operand<'a>),
    Double(Cell<'a>, Offset<'a>),
    Sum(Cell<'a>, Operand<'a>),
    Product(Cell<'a>, Operand<'a>),
}

/// Where a relative jump goes.
#[derive(Clone, Copy)]
pub(crate) enum Aim<'a> {
    By(Operand<'a>),
    Label(&'a [u8]),
}

/// A statement; a flag says whether `, ap++` stands at its end.
#[derive(Clone, Copy)]
pub(crate) enum Statement<'a> {
    Assert(Cell<'a>, Source<'a>, bool),
    Jump(Aim<'a>, bool),
    JumpAbs(Operand<'a>, bool),
    JumpIf(Aim<'a>, Cell<'a>, bool),
    Call(Aim<'a>),
    CallAbs(Operand<'a>),
    Ret,
    AddAp(Operand<'a>),
    Word(Numeral<'a>),
}

/// A line of a text, without its spaces and its comment.
#[derive(Clone, Copy)]
pub(crate) enum Line<'a> {
    Empty,
    Label(&'a [u8]),
    Statement(Statement<'a>),
}
