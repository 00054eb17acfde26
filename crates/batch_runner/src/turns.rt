//! What the loop over hash instances reads and writes, one pass over a program by groups of four words.

ghost use Rattle.std.specs.Prelude.{◌≡◌, ◌*◌, ◌<◌, ◌++◌, [], ◌∷◌, length, slice_index, All, IfOk};
ghost use Rattle.builtin_hash.specs.Chains.{group_at, groups_of};
ghost use Rattle.cairo_model.specs.Machine.Addresses.{down, up};
ghost use Rattle.goldi_field.specs.Numbers.{IsFelt};
ghost use Rattle.relocator.specs.Working.Lists.{numbers};
ghost use Rattle.batch_runner.specs.Working.Turns.{hash_from, turns_from};

use batch_plan::lengths::{INSTANCE, WORDS_PER_TURN};
use builtin_hash::instance;
use cairo_model::{felt_below, felt_of};
use goldi_field::{Felt, PRIME};
use std::alloc::AllocError;

/// The instances: the words of each twice and its numbers, and the words of the last.
pub(crate) fn push_instances(
    values: Vec<Felt>,
    start: [u32; 8],
    code: &[u64],
) -> Result<Vec<Felt>, AllocError>
    requires { All IsFelt code.now }
    ensures { IfOk result (λ out. numbers out.items ≡ numbers values.items ++ hash_from start (groups_of code.now)) }
{
    let mut out = values;
    let mut words = start;
    for k in 0..code.len().div_ceil(4) {
        let next = group(code, k);
        out = push_instance(out, words, next)?;
        let after = instance(words, next);
        words = after;
    }
    push_words(out, words)
}

/// What stands just below ap at a turn: the instance, the address of its code words, and the words left.
#[derive(Clone, Copy, Debug)]
pub(crate) struct Turn {
    pub instance: Felt,
    pub code: Felt,
    pub left: Felt,
}

/// The turns from this one on, each with its words and numbers, and what stands below ap after the last.
pub(crate) fn push_turns(
    values: Vec<Felt>,
    first: Turn,
    start: [u32; 8],
    code: &[u64],
) -> Result<Vec<Felt>, AllocError>
    requires { All IsFelt code.now }
    ensures { IfOk result (λ out. numbers out.items ≡ numbers values.items ++ turns_from first.instance.number first.code.number first.left.number start (groups_of code.now)) }
{
    let mut out = values;
    let mut turn = first;
    let mut words = start;
    for k in 0..code.len().div_ceil(4) {
        let next = group(code, k);
        out = push_turn(out, &turn, words, next)?;
        let later = next_turn(&turn);
        turn = later;
        let after = instance(words, next);
        words = after;
    }
    push_state(out, &turn)
}

fn next_turn(turn: &Turn) -> Turn
    ensures instance { result.instance.number ≡ up turn.now.instance.number 20 }
    ensures code { result.code.number ≡ up turn.now.code.number 4 }
    ensures left { result.left.number ≡ down turn.now.left.number 4 }
{
    Turn {
        instance: turn.instance.add(felt_below(INSTANCE)),
        code: turn.code.add(felt_below(WORDS_PER_TURN)),
        left: turn.left.add(felt_below(PRIME - WORDS_PER_TURN)),
    }
}

fn push_state(values: Vec<Felt>, turn: &Turn) -> Result<Vec<Felt>, AllocError>
    ensures { IfOk result (λ out. numbers out.items ≡ numbers values.items ++ turn.now.instance.number ∷ turn.now.code.number ∷ turn.now.left.number ∷ []) }
{
    let mut out = values;
    out.extend_from_slice(&[turn.instance, turn.code, turn.left])?;
    Ok(out)
}

fn push_turn(
    values: Vec<Felt>,
    turn: &Turn,
    words: [u32; 8],
    next: [u64; 4],
) -> Result<Vec<Felt>, AllocError>
    requires { All IsFelt next }
    ensures { IfOk result (λ out. numbers out.items ≡ ((numbers values.items ++ turn.now.instance.number ∷ turn.now.code.number ∷ turn.now.left.number ∷ []) ++ words) ++ next) }
{
    let with_state = push_state(values, turn)?;
    push_inputs(with_state, words, next)
}

fn push_instance(
    values: Vec<Felt>,
    words: [u32; 8],
    next: [u64; 4],
) -> Result<Vec<Felt>, AllocError>
    requires { All IsFelt next }
    ensures { IfOk result (λ out. numbers out.items ≡ ((numbers values.items ++ words) ++ words) ++ next) }
{
    let once = push_words(values, words)?;
    push_inputs(once, words, next)
}

fn push_inputs(values: Vec<Felt>, words: [u32; 8], next: [u64; 4]) -> Result<Vec<Felt>, AllocError>
    requires { All IsFelt next }
    ensures { IfOk result (λ out. numbers out.items ≡ (numbers values.items ++ words) ++ next) }
{
    let with_words = push_words(values, words)?;
    push_group(with_words, next)
}

/// Eight words.
pub(crate) fn push_words(values: Vec<Felt>, words: [u32; 8]) -> Result<Vec<Felt>, AllocError>
    ensures { IfOk result (λ out. numbers out.items ≡ numbers values.items ++ words) }
{
    let mut out = values;
    for word in &words {
        out.push(felt_of(*word))?;
    }
    Ok(out)
}

fn push_group(values: Vec<Felt>, next: [u64; 4]) -> Result<Vec<Felt>, AllocError>
    requires { All IsFelt next }
    ensures { IfOk result (λ out. numbers out.items ≡ numbers values.items ++ next) }
{
    let mut out = values;
    for number in &next {
        out.push(felt_below(*number))?;
    }
    Ok(out)
}

fn group(code: &[u64], k: usize) -> [u64; 4]
    requires few { 4 * k < length code.now }
    requires felts { All IsFelt code.now }
    ensures value { result ≡ group_at code.now k }
    ensures felts { All IsFelt result }
{
    let first = 4 * k;
    [
        number(code, first),
        number(code, first + 1),
        number(code, first + 2),
        number(code, first + 3),
    ]
}

fn number(code: &[u64], place: usize) -> u64
    ensures { result ≡ slice_index code.now place }
{
    code.get(place).copied().unwrap_or(0)
}
