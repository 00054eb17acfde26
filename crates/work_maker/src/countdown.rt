//! DOWN: a program that counts its rounds down to 0, and its run as a PIE (`examples/down.casm`).

ghost use Rattle.std.specs.Prelude.{◌≡◌, ◌++◌, ◌∷◌, [], ◌≤◌, IfOk, OnOk, length, map};
ghost use Rattle.cairo_model.specs.Limits.{most_cells};
ghost use Rattle.cairo_model.specs.Machine.Values.{number as numeral, place as location};
ghost use Rattle.cairo_model.specs.Pie.Records.{KeepsRules};
ghost use Rattle.cairo_model.specs.Views.Machine.{datum};
ghost use Rattle.work_maker.specs.Down.{round_values, countdown, down_code, down_pie, down_stack, down_stops, frame_starts};
ghost use Rattle.work_maker.specs.Limits.{most_rounds};

use crate::limits::{OTHER_STEPS, ROUND_STEPS};
use crate::rows::{put_numbers, put_numeral, put_row};
use cairo_model::segments::{EXECUTION, FRAME, HASH, OUTPUT, PROGRAM, RANGE};
use cairo_model::{Pie, Place, Value, felt_of};
use std::alloc::{AllocError, Global};

// What stands in the program before the number of its rounds.
const BEFORE_ROUNDS: [u64; 5] = [
    0x4806_8001_7fff_8000,
    1,
    0x4806_8001_7fff_8000,
    1,
    0x4806_8001_7fff_8000,
];

// What stands after it.
const AFTER_ROUNDS: [u64; 12] = [
    0x4812_7ffe_7fff_8000,
    0x4812_7ffd_7fff_8000,
    0x4824_8001_7ffd_8000,
    0xffff_ffff_0000_0000,
    0x0206_8001_7fff_7fff,
    0xffff_fffe_ffff_fffd,
    0x4002_8000_7ffb_7ffd,
    0x4826_8001_7ffb_8000,
    1,
    0x480a_7ffc_7fff_8000,
    0x480a_7ffd_7fff_8000,
    0x208b_7fff_7fff_7ffe,
];

/// The PIE of DOWN with so many rounds: it is built cell by cell, and runs nothing.
pub fn down(alloc: Global, rounds: u32) -> Result<Pie, AllocError>
    requires { rounds ≤ most_rounds }
    ensures pie { IfOk result (λ pie. pie ≡ down_pie rounds) }
    // It has a file.
    ensures rules { IfOk result (λ pie. KeepsRules pie) }
{
    let pie = built(alloc, rounds)?;
    Ok(pie)
}

fn built(alloc: Global, rounds: u32) -> Result<Pie, AllocError>
    requires { rounds ≤ most_rounds }
    ensures { IfOk result (λ pie. pie ≡ down_pie rounds) }
{
    let code = code_of(alloc, rounds)?;
    let stack = stack_of(alloc, rounds)?;
    let outputs = [Value::Number(felt_of(1))];
    let mut cells = Vec::new(alloc);
    put_row(&mut cells, PROGRAM, code.as_slice())?;
    put_row(&mut cells, EXECUTION, stack.as_slice())?;
    put_row(&mut cells, OUTPUT, &outputs)?;
    let sizes = vec![in alloc;
        code.len() as u32,
        stack.len() as u32,
        outputs.len() as u32,
        0,
        0,
        0,
        0,
    ]?;
    Ok(Pie {
        main: 0,
        steps: OTHER_STEPS + ROUND_STEPS * rounds,
        sizes,
        cells,
    })
}

fn code_of(alloc: Global, rounds: u32) -> Result<Vec<Value>, AllocError>
    ensures { IfOk result (λ code. map datum code.items ≡ map numeral (down_code rounds)) }
{
    let mut code = Vec::new(alloc);
    put_numbers(&mut code, &BEFORE_ROUNDS)?;
    put_numeral(&mut code, u64::from(rounds))?;
    put_numbers(&mut code, &AFTER_ROUNDS)?;
    Ok(code)
}

fn stack_of(alloc: Global, rounds: u32) -> Result<Vec<Value>, AllocError>
    requires { rounds ≤ most_rounds }
    ensures few { IfOk result (λ stack. length stack.items ≤ most_cells) }
    ensures is { IfOk result (λ stack. map datum stack.items ≡ down_stack rounds) }
{
    let mut stack = Vec::new(alloc);
    put_frame(&mut stack)?;
    put_round(&mut stack, rounds)?;
    put_countdown(&mut stack, rounds)?;
    put_stops(&mut stack)?;
    Ok(stack)
}

fn put_frame(stack: &mut Vec<Value>) -> Result<(), AllocError>
    ensures { OnOk result (map datum stack.new.items ≡ map datum stack.old.items ++ frame_starts) }
{
    for index in 0..FRAME.len() {
        put_place(stack, FRAME[index], 0)?;
    }
    Ok(())
}

fn put_countdown(stack: &mut Vec<Value>, rounds: u32) -> Result<(), AllocError>
    ensures { OnOk result (map datum stack.new.items ≡ map datum stack.old.items ++ countdown rounds) }
{
    for round in 0..rounds {
        put_round(stack, rounds - 1 - round)?;
    }
    Ok(())
}

// Two ones, and the rounds that are left.
fn put_round(stack: &mut Vec<Value>, left: u32) -> Result<(), AllocError>
    ensures { OnOk result (map datum stack.new.items ≡ map datum stack.old.items ++ round_values left) }
{
    put_numeral(stack, 1)?;
    put_numeral(stack, 1)?;
    put_numeral(stack, u64::from(left))
}

// The ends of the segments of the builtins.
fn put_stops(stack: &mut Vec<Value>) -> Result<(), AllocError>
    ensures { OnOk result (map datum stack.new.items ≡ map datum stack.old.items ++ down_stops) }
{
    put_place(stack, OUTPUT, 1)?;
    put_place(stack, RANGE, 0)?;
    put_place(stack, HASH, 0)
}

fn put_place(stack: &mut Vec<Value>, segment: u16, offset: u32) -> Result<(), AllocError>
    requires { offset ≤ 1 }
    ensures { OnOk result (map datum stack.new.items ≡ map datum stack.old.items ++ location segment offset ∷ []) }
{
    stack.push(Value::At(Place { segment, offset }))?;
    Ok(())
}
