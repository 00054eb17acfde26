ghost use Rattle.cairo_word.specs.Instructions.{fields};
ghost use Rattle.cairo_word.specs.Word.{fields_of, word_fault_of, register_of, offset_bias, offset_bits};
ghost use Rattle.std.specs.Prelude.{◌≡◌, ◌-ℤ◌, ◌<◌, ◌^◌, ℕ, None, pos};

use crate::word::{Instruction, Reg};

/// The word that spells an instruction.
pub fn encode(i: &Instruction) -> u64
    ensures sound { word_fault_of result ≡ None }
    ensures value { fields_of result ≡ fields i.now }
    ensures only { (w : ℕ) → word_fault_of w ≡ None → fields_of w ≡ fields i.now → w ≡ result }
{
    biased(i.off_dst)
        + (biased(i.off_op0) << 16)
        + (biased(i.off_op1) << 32)
        + (register_bit(i.dst_reg) << 48)
        + (register_bit(i.op0_reg) << 49)
        + (u64::from(i.op1_src) << 50)
        + (u64::from(i.res_logic) << 53)
        + (u64::from(i.pc_update) << 55)
        + (u64::from(i.ap_update) << 58)
        + (u64::from(i.opcode) << 60)
}

/// What is added to an offset to keep it, so that it is no negative number.
pub(crate) const OFFSET_BIAS: i32 = 0x8000;

// An offset as it is kept.
fn biased(offset: i16) -> u64
    ensures value { pos result -ℤ pos offset_bias ≡ offset }
    ensures below { result < 2 ^ offset_bits }
{
    (offset as i32 + OFFSET_BIAS) as u64
}

fn register_bit(register: Reg) -> u64
    ensures value { register_of result ≡ register }
    ensures below { result < 2 }
{
    match register {
        Reg::Ap => 0,
        Reg::Fp => 1,
    }
}

/// A law for callers' proofs, which does nothing when it runs: two words without a fault that have the same fields
/// are one word.
pub fn fields_determine_word()
    ensures { (v w : ℕ) → word_fault_of v ≡ None → word_fault_of w ≡ None → fields_of v ≡ fields_of w → v ≡ w }
{}
