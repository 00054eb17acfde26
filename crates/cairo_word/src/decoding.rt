ghost use Rattle.cairo_word.specs.Instructions.{fields};
ghost use Rattle.cairo_word.specs.Working.Widths.{word_bits};
ghost use Rattle.cairo_word.specs.Word.{fields_of, word_fault_of, offset_of, bits_of, register_of, mixture_fault_of, instruction_size, is_choice as choice_test, is_jump_mix as jump_mix_test, is_call_mix as call_mix_test};
ghost use Rattle.std.specs.Prelude.{◌≡◌, ◌<◌, IfOk, IfErr, OnOk, Some, None};

use crate::encoding::OFFSET_BIAS;
use crate::word::{Instruction, Reg, WordFault};

// The bits of an offset, at the low end of a word.
const OFFSET_MASK: u64 = 0xffff;

/// The instruction that a word spells, or the first fault of the word.
pub fn decode(word: u64) -> Result<Instruction, WordFault>
    ensures fault { IfErr result (λ fault. word_fault_of word ≡ Some fault) }
    ensures sound { OnOk result (word_fault_of word ≡ None) }
    ensures value { IfOk result (λ i. fields i ≡ fields_of word) }
{
    if word >> 63 != 0 {
        return Err(WordFault::HighBit);
    }
    let op1_src = three_bits(word, 50);
    let res_logic = two_bits(word, 53);
    let pc_update = three_bits(word, 55);
    let ap_update = two_bits(word, 58);
    let opcode = three_bits(word, 60);
    if let Some(fault) = mixture_fault(op1_src, res_logic, pc_update, ap_update, opcode) {
        return Err(fault);
    }
    Ok(Instruction {
        off_dst: offset(word, 0),
        off_op0: offset(word, 16),
        off_op1: offset(word, 32),
        dst_reg: register(one_bit(word, 48)),
        op0_reg: register(one_bit(word, 49)),
        op1_src,
        res_logic,
        pc_update,
        ap_update,
        opcode,
    })
}

/// The number of cells that an instruction takes: 2 where op1 is the cell after it, else 1.
pub fn size(i: &Instruction) -> u64
    ensures { result ≡ instruction_size (fields i.now) }
{
    if i.op1_src == 1 { 2 } else { 1 }
}

fn mixture_fault(
    op1_src: u8,
    res_logic: u8,
    pc_update: u8,
    ap_update: u8,
    opcode: u8,
) -> Option<WordFault>
    ensures { result ≡ mixture_fault_of op1_src res_logic pc_update ap_update opcode }
{
    if !is_choice(op1_src) {
        Some(WordFault::Op1Source)
    } else if res_logic == 3 {
        Some(WordFault::ResLogic)
    } else if !is_choice(pc_update) {
        Some(WordFault::PcUpdate)
    } else if ap_update == 3 {
        Some(WordFault::ApUpdate)
    } else if !is_choice(opcode) {
        Some(WordFault::Opcode)
    } else if is_jump_mix(res_logic, pc_update, ap_update, opcode) {
        Some(WordFault::JumpMix)
    } else if is_call_mix(ap_update, opcode) {
        Some(WordFault::CallMix)
    } else {
        None
    }
}

fn is_choice(n: u8) -> bool
    ensures { result ≡ choice_test n }
{
    matches!(n, 0 | 1 | 2 | 4)
}

fn is_jump_mix(res_logic: u8, pc_update: u8, ap_update: u8, opcode: u8) -> bool
    ensures { result ≡ jump_mix_test res_logic pc_update ap_update opcode }
{
    pc_update == 4 && (res_logic != 0 || opcode != 0 || ap_update == 1)
}

fn is_call_mix(ap_update: u8, opcode: u8) -> bool
    ensures { result ≡ call_mix_test ap_update opcode }
{
    opcode == 1 && ap_update != 0
}

fn offset(word: u64, place: u32) -> i16
    requires { place < 48 }
    ensures { result ≡ offset_of word place }
{
    ((word >> place & OFFSET_MASK) as i32 - OFFSET_BIAS) as i16
}

fn register(bit: u8) -> Reg
    ensures { result ≡ register_of bit }
{
    if bit == 0 { Reg::Ap } else { Reg::Fp }
}

fn one_bit(word: u64, place: u32) -> u8
    requires { place < word_bits }
    ensures { result ≡ bits_of word place 1 }
{
    (word >> place & 1) as u8
}

fn two_bits(word: u64, place: u32) -> u8
    requires { place < word_bits }
    ensures { result ≡ bits_of word place 2 }
{
    (word >> place & 3) as u8
}

fn three_bits(word: u64, place: u32) -> u8
    requires { place < word_bits }
    ensures { result ≡ bits_of word place 3 }
{
    (word >> place & 7) as u8
}
