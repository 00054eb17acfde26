//! The run of a program that writes 5, placed in the field's memory: its cells and states are a worked example.

ghost use Rattle.std.specs.Prelude.{◌<◌, map, OnOk};
ghost use Rattle.cairo_model.specs.Machine.FieldMemories.{AddressesRise, field_cell};

use cairo_model::{Cells, FieldState, StepFault, felt_of};
use cairo_step::{row_holds, step};
use goldi_field::Felt;
use std::alloc::{AllocError, Global};
use std::process::Abort;
use std::test::Fail;

const CELLS: [(u32, u64); 18] = [
    (1, 0x480680017fff8000),
    (2, 5),
    (3, 0x400280007ffb7fff),
    (4, 0x482680017ffb8000),
    (5, 1),
    (6, 0x480a7ffc7fff8000),
    (7, 0x480a7ffd7fff8000),
    (8, 0x208b7fff7fff7ffe),
    (10, 20),
    (11, 22),
    (12, 23),
    (13, 24),
    (14, 25),
    (15, 5),
    (16, 21),
    (17, 22),
    (18, 23),
    (20, 5),
];

fn state(pc: u32, ap: u32, fp: u32) -> FieldState {
    FieldState {
        pc: felt_of(pc),
        ap: felt_of(ap),
        fp: felt_of(fp),
    }
}

// Adds a cell above all others, and leaves out another.
fn add_cell(cells: &mut Vec<(Felt, Felt)>, address: Felt, value: Felt) -> Result<(), AllocError>
    requires { AddressesRise (map field_cell cells.old.items) }
    ensures { OnOk result (AddressesRise (map field_cell cells.new.items)) }
{
    let count = cells.len();
    if count > 0 && address <= cells[count - 1].0 {
        return Ok(());
    }
    cells.push((address, value))?;
    Ok(())
}

fn memory_of(alloc: Global, list: &[(u32, u64)]) -> Result<Cells, AllocError> {
    let mut cells: Vec<(Felt, Felt)> = Vec::new(alloc);
    for (address, number) in list {
        if let Some(value) = Felt::new(*number) {
            add_cell(&mut cells, felt_of(*address), value)?;
        }
    }
    Ok(Cells::of(cells))
}

const STATES: [(u32, u32, u32); 7] = [
    (1, 15, 15),
    (3, 16, 15),
    (4, 16, 15),
    (6, 17, 15),
    (7, 18, 15),
    (8, 19, 15),
    (25, 19, 24),
];

fn state_at(index: usize) -> FieldState {
    match STATES.get(index) {
        Some((pc, ap, fp)) => state(*pc, *ap, *fp),
        None => state(0, 0, 0),
    }
}

// Whether there is a row from the first state to the second, and to each of three beside it.
fn rows_to(memory: &Cells, from: FieldState, to: FieldState) -> [bool; 4] {
    let FieldState { pc, ap, fp } = to;
    let (next_pc, next_ap, next_fp) = (pc.add(Felt::ONE), ap.add(Felt::ONE), fp.add(Felt::ONE));
    [
        row_holds(memory, from, to),
        row_holds(
            memory,
            from,
            FieldState {
                pc: next_pc,
                ap,
                fp,
            },
        ),
        row_holds(
            memory,
            from,
            FieldState {
                pc,
                ap: next_ap,
                fp,
            },
        ),
        row_holds(
            memory,
            from,
            FieldState {
                pc,
                ap,
                fp: next_fp,
            },
        ),
    ]
}

// The state at this index steps to the next, and has a row to it alone.
fn expect_step(rt: &impl Abort, memory: &Cells, index: usize)
    requires { index < 6 }
{
    let next = state_at(index + 1);
    let stepped = step(memory, state_at(index));
    assert_eq!(rt; stepped, Ok(next), "at {index}");
    let rows = rows_to(memory, state_at(index), next);
    assert_eq!(rt; rows, [true, false, false, false], "at {index}");
}

#[test]
fn each_state_of_a_placed_run_steps_to_the_next(rt: HostRuntime) -> Result<(), Fail> {
    let (end, holds) = {
        let memory = memory_of(rt.alloc(), &CELLS)?;
        for index in 0..6 {
            expect_step(&rt, &memory, index);
        }
        (
            step(&memory, state_at(6)),
            row_holds(&memory, state_at(6), state(26, 19, 24)),
        )
    };
    assert_eq!(rt; end, Err(StepFault::Fetch));
    assert!(rt; !holds);
    Ok(())
}

// Whether there is a row over these cells from one state to this one.
fn has_row(
    alloc: Global,
    cells: &[(u32, u64)],
    pc: u32,
    ap: u32,
    fp: u32,
) -> Result<bool, AllocError> {
    let memory = memory_of(alloc, cells)?;
    Ok(row_holds(&memory, state(1, 20, 15), state(pc, ap, fp)))
}

#[test]
fn rows_of_conditional_jumps_and_calls(rt: HostRuntime) -> Result<(), Fail> {
    let falls = [(1, 0x0a0680017fff8000), (2, 7), (14, 3), (20, 0)];
    let jumps = [(1, 0x0a0680017fff8000), (2, 7), (14, 3), (20, 5)];
    let mixes = [(1, 0x060680017fff8000), (2, 7), (14, 3), (20, 0)];
    let calls = [(1, 0x1104800180018000), (2, 7), (20, 15), (21, 3)];
    let strays = [(1, 0x1104800180018000), (2, 7), (20, 15), (21, 4)];
    for (cells, (pc, ap, fp), holds) in [
        (falls, (3, 21, 15), true),
        (falls, (8, 21, 15), false),
        (jumps, (8, 21, 15), true),
        (jumps, (3, 21, 15), false),
        (mixes, (3, 27, 15), false),
        (calls, (8, 22, 22), true),
        (calls, (8, 22, 15), false),
        (strays, (8, 22, 22), false),
    ] {
        let found = has_row(rt.alloc(), &cells, pc, ap, fp)?;
        assert_eq!(rt; found, holds, "at {pc}");
    }
    Ok(())
}
