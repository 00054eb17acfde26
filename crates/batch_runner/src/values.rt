//! The bootloader's own numbers for a task.

ghost use Rattle.std.specs.Prelude.{◌≡◌, ◌+◌, ◌<◌, ◌^◌, ◌++◌, [], ◌∷◌, length, map, All, IfOk};
ghost use Rattle.boot_program.specs.Cells.{padded_length};
ghost use Rattle.builtin_hash.specs.Chains.{chain_start as start_of_chain};
ghost use Rattle.cairo_model.specs.Machine.Addresses.{up};
ghost use Rattle.boot_program.specs.Frames.{own_hash, own_head, own_list};
ghost use Rattle.boot_program.specs.Instances.{eight};
ghost use Rattle.cairo_model.specs.Segments.{program_segment};
ghost use Rattle.cairo_model.specs.Pie.Layouts.{relocated};
ghost use Rattle.cairo_model.specs.Views.Machine.{registers};
ghost use Rattle.relocator.specs.Working.Lists.{IsStateIn, numbers};
ghost use Rattle.batch_runner.specs.Layout.{boot_frame, last_ap, more_turns as turns_after, next_place as place_after, output_size as output_cells_of, size as size_of};
ghost use Rattle.batch_runner.specs.Memory.{final_ap_of, first_words as first_words_of, gap_of, stops_at, turn_values_at, words_at};
ghost use Rattle.batch_runner.specs.Working.Values.{first_group, input_list, inputs_of, program_list, return_list, state_list, sum_list};

use crate::place::{instances_size, output_size, own_size, size_at, zeros_for};
use crate::placed::PlacedTask;
use crate::turns::{Turn, push_instances, push_turns, push_words};
use batch_plan::lengths::{BATCH_FRAME, HEADER, INSTANCE};
use boot_program::BOOT_END;
use builtin_hash::instance;
use cairo_model::segments::{BUILTIN_MASK, PROGRAM};
use cairo_model::{State, felt_below, felt_of, pie_states_stay};
use goldi_field::Felt;
use relocator::relocate_value;
use std::alloc::{AllocError, Global};

/// The address after the bootloader's jump back to the head of its loop over tasks.
const BRANCH_ADDRESS: u32 = 8;

/// fp of the batch, whose frame stands just below.
pub(crate) const BOOT_FRAME: u32 = BOOT_END as u32 + 1 + BATCH_FRAME as u32;

/// From the state of the loop over tasks, so many of which are left, to the task's own cells.
pub(crate) fn own_values(
    alloc: Global,
    left: u32,
    placed: &PlacedTask,
) -> Result<Vec<Felt>, AllocError>
    ensures { IfOk result (λ out. numbers out.items ≡ own_list boot_frame left (turn_values_at placed.now.task placed.now.place) (gap_of placed.now.task placed.now.place) (output_cells_of placed.now.task) (stops_at (place_after placed.now.task placed.now.place))) }
{
    let inputs = inputs_for(placed);
    let head = head_values(alloc, left, placed, &inputs)?;
    let turns = push_turns(
        head,
        first_turn(placed, &inputs),
        first_words(placed),
        placed.code(),
    )?;
    let values = push_words(turns, digest_of(placed))?;
    push_program(values, &inputs)
}

// The program hash, which is the header's words.
fn digest_of(placed: &PlacedTask) -> [u32; 8]
    ensures { result ≡ placed.now.task.fact.program }
{
    placed.task().fact().program.words
}

fn push_program(values: Vec<Felt>, inputs: &Inputs) -> Result<Vec<Felt>, AllocError>
    ensures { IfOk result (λ out. numbers out.items ≡ numbers values.items ++ program_list (inputs_of inputs.now)) }
{
    let mut out = values;
    out.extend_from_slice(&[inputs.program, inputs.main, inputs.length])?;
    Ok(out)
}

// The frame of the task, and the six cells below it.
fn head_values(
    alloc: Global,
    left: u32,
    placed: &PlacedTask,
    inputs: &Inputs,
) -> Result<Vec<Felt>, AllocError>
    requires { inputs_of inputs.now ≡ (turn_values_at placed.now.task placed.now.place).task }
    ensures { IfOk result (λ out. numbers out.items ≡ own_head boot_frame left (turn_values_at placed.now.task placed.now.place) (gap_of placed.now.task placed.now.place) (output_cells_of placed.now.task) (stops_at (place_after placed.now.task placed.now.place))) }
{
    let words = size_at(placed.task(), PROGRAM);
    let mut values = Vec::with_capacity(alloc, own_size(words) as usize)?;
    values.extend_from_slice(&state_values(left, placed))?;
    values.extend_from_slice(&input_values(inputs))?;
    values.extend_from_slice(&return_values(placed))?;
    values.extend_from_slice(&sum_values(inputs))?;
    Ok(values)
}

fn state_values(left: u32, placed: &PlacedTask) -> [Felt; 6]
    ensures { numbers result ≡ state_list left (turn_values_at placed.now.task placed.now.place) }
{
    let at = placed.at();
    [
        felt_of(left),
        felt_of(at.output),
        felt_of(at.range),
        felt_of(at.hash),
        felt_of(BOOT_FRAME),
        felt_of(BRANCH_ADDRESS),
    ]
}

/// What the memory supplies for a task: where its program stands, its main and length, and the two bits of the number of zeros
/// that fill the last group.
#[derive(Clone, Copy, Debug)]
pub(crate) struct Inputs {
    pub program: Felt,
    pub main: Felt,
    pub length: Felt,
    pub low_bit: Felt,
    pub high_bit: Felt,
}

fn inputs_for(placed: &PlacedTask) -> Inputs
    ensures { inputs_of result ≡ (turn_values_at placed.now.task placed.now.place).task }
{
    let words = size_at(placed.task(), PROGRAM);
    let zeros = zeros_for(words);
    Inputs {
        program: felt_of(placed.at().program),
        main: main_of(placed),
        length: felt_of(words),
        low_bit: felt_of(zeros % 2),
        high_bit: felt_of(zeros / 2),
    }
}

fn main_of(placed: &PlacedTask) -> Felt
    ensures { result.number ≡ placed.now.task.pie.main }
{
    felt_below(placed.task().pie().main)
}

fn input_values(inputs: &Inputs) -> [Felt; 5]
    ensures { numbers result ≡ input_list (inputs_of inputs.now) }
{
    [
        inputs.program,
        inputs.main,
        inputs.length,
        inputs.low_bit,
        inputs.high_bit,
    ]
}

fn return_values(placed: &PlacedTask) -> [Felt; 5]
    ensures { numbers result ≡ return_list (gap_of placed.now.task placed.now.place) (stops_at (place_after placed.now.task placed.now.place)) (output_cells_of placed.now.task) }
{
    let next = placed.next();
    [
        gap(placed),
        felt_of(next.output),
        felt_of(next.range),
        felt_of(next.hash),
        felt_of(output_size(placed.task())),
    ]
}

// From where the task leaves ap to the next turn.
fn gap(placed: &PlacedTask) -> Felt
    ensures { result.number ≡ gap_of placed.now.task placed.now.place }
{
    felt_of(placed.next().frame).sub(final_ap(placed))
}

fn final_ap(placed: &PlacedTask) -> Felt
    ensures { result.number ≡ final_ap_of placed.now.task placed.now.place }
{
    pie_states_stay();
    last_relocated(placed.task().states(), placed.bases())
}

fn last_relocated(states: &[State], bases: &[Felt]) -> Felt
    requires some { 0 < length states.now }
    requires inside { All (IsStateIn (length bases.now)) states.now }
    ensures { result.number ≡ relocated (numbers bases.now) (last_ap (map registers states.now)) }
{
    let last = states[states.len() - 1];
    relocate_value(last.ap, bases)
}

fn sum_values(inputs: &Inputs) -> [Felt; 8]
    ensures { numbers result ≡ sum_list (inputs_of inputs.now) }
{
    let with_low_bit = inputs.length.add(inputs.low_bit);
    [
        felt_of(0),
        felt_of(1),
        felt_below(BUILTIN_MASK),
        inputs.length.add(felt_of(4)),
        inputs.program.add(inputs.length),
        inputs.program.add(inputs.main),
        with_low_bit,
        with_low_bit.add(inputs.high_bit),
    ]
}

fn first_turn(placed: &PlacedTask, inputs: &Inputs) -> Turn
    ensures instance { result.instance.number ≡ up placed.now.place.hash 20 }
    ensures code { result.code.number ≡ inputs.now.program.number }
    ensures left { result.left.number ≡ padded_length (inputs_of inputs.now) }
{
    let with_bits = inputs.length.add(inputs.low_bit).add(inputs.high_bit);
    Turn {
        instance: felt_of(placed.at().hash).add(felt_below(INSTANCE)),
        code: inputs.program,
        left: with_bits.add(inputs.high_bit),
    }
}

// The words after a task's first instance, which hashes the program's header.
fn first_words(placed: &PlacedTask) -> [u32; 8]
    ensures { result ≡ first_words_of placed.now.task }
{
    let task = placed.task();
    let words = size_at(task, PROGRAM);
    let header = [1, task.pie().main, u64::from(words), BUILTIN_MASK];
    instance(chain_start(words), header)
}

fn chain_start(words: u32) -> [u32; 8]
    requires { words < 2 ^ 30 }
    ensures { result ≡ start_of_chain (words + 4) }
{
    [0, 0, 0, 0, 0, 0, 0, words + 4]
}

/// The bootloader's hash instances for a task.
pub(crate) fn instance_values(alloc: Global, placed: &PlacedTask) -> Result<Vec<Felt>, AllocError>
    ensures { IfOk result (λ out. numbers out.items ≡ own_hash (turn_values_at placed.now.task placed.now.place)) }
{
    let words = size_at(placed.task(), PROGRAM);
    let values = Vec::with_capacity(alloc, instances_size(words) as usize)?;
    let start = push_words(values, chain_start(words))?;
    let first = push_first_group(start, placed)?;
    push_instances(first, first_words(placed), placed.code())
}

fn push_first_group(values: Vec<Felt>, placed: &PlacedTask) -> Result<Vec<Felt>, AllocError>
    ensures { IfOk result (λ out. numbers out.items ≡ numbers values.items ++ first_group (turn_values_at placed.now.task placed.now.place).task) }
{
    let inputs = inputs_for(placed);
    let mut out = values;
    out.extend_from_slice(&[
        felt_of(1),
        inputs.main,
        inputs.length,
        felt_below(BUILTIN_MASK),
    ])?;
    Ok(out)
}

/// A task's header.
pub(crate) fn header_values(alloc: Global, placed: &PlacedTask) -> Result<Vec<Felt>, AllocError>
    ensures { IfOk result (λ out. numbers out.items ≡ output_cells_of placed.now.task ∷ eight (words_at placed.now.task (turns_after (size_of placed.now.task program_segment) + 1))) }
{
    let first = first_value(alloc, felt_of(output_size(placed.task())))?;
    push_words(first, digest_of(placed))
}

fn first_value(alloc: Global, value: Felt) -> Result<Vec<Felt>, AllocError>
    ensures { IfOk result (λ out. numbers out.items ≡ value.number ∷ []) }
{
    let mut values = Vec::with_capacity(alloc, HEADER as usize)?;
    values.push(value)?;
    Ok(values)
}
