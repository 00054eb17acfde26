ghost use Rattle.cairo_word.specs.Word.{mixture_fault_of};
ghost use Rattle.std.specs.Prelude.{◌≡◌, ◌<◌, None};

/// A register that an address counts from: the allocation pointer or the frame pointer.
#[derive(Clone, Copy, Debug, PartialEq, Eq)]
pub enum Reg {
    Ap,
    Fp,
}

/// What is wrong with a word, in the order in which the faults are looked for.
#[derive(Clone, Copy, Debug, PartialEq, Eq)]
pub enum WordFault {
    /// Bit 63 is set.
    HighBit,
    /// The source of op1 is none of 0, 1, 2 and 4.
    Op1Source,
    /// The logic of the result is 3.
    ResLogic,
    /// The update of pc is none of 0, 1, 2 and 4.
    PcUpdate,
    /// The update of ap is 3.
    ApUpdate,
    /// The opcode is none of 0, 1, 2 and 4.
    Opcode,
    /// A conditional jump computes a result, has an opcode, or adds a result to ap.
    JumpMix,
    /// A call updates ap in a way of its own.
    CallMix,
}

/// A machine instruction without a fault. Its groups of flags are numbers, each flag's bit at its place in the group.
#[derive(Clone, Copy, Debug, PartialEq, Eq)]
pub struct Instruction {
    pub off_dst: i16,
    pub off_op0: i16,
    pub off_op1: i16,
    pub dst_reg: Reg,
    pub op0_reg: Reg,
    pub op1_src: u8,
    pub res_logic: u8,
    pub pc_update: u8,
    pub ap_update: u8,
    pub opcode: u8,
    // A mixture rules out 3 alone in these two groups, and each has two bits in a word.
    pub ghost narrow: { (res_logic < 4) × (ap_update < 4) },
    pub ghost defined: { mixture_fault_of op1_src res_logic pc_update ap_update opcode ≡ None },
}
