ghost use Rattle.std.specs.Prelude.{◌<◌, IfOk};
ghost use Rattle.cairo_model.specs.Pie.Records.{KeepsRules};

use cairo_model::{Checked, Pie, Place, Shape, State, Value};
use hex::decode;
use pie_format::{read, write};
use pie_replay::{replay, step_value};
use seg_memory::SegMemory;
use std::alloc::{AllocError, Global};
use std::process::Abort;
use std::test::Fail;
use worked_vectors::files::{
    ADDR, BACK, DOWN_3, DOWN_14, EMPTY, FIVE, HASH0, JUMP, PROD, RANGE_7, TALL, UNDER,
};

// It is the run of the program that writes 5.
fn expect_five(rt: &impl Abort, checked: &Checked) {
    assert_eq!(rt; checked.shape(), Shape { steps: 6, size: 18 });
    let outputs = checked.fact().outputs.as_slice().len();
    assert_eq!(rt; (outputs, checked.states().len()), (1, 7));
}

fn expect_same(rt: &impl Abort, copy: &Checked, checked: &Checked) {
    assert!(rt; copy.fact() == checked.fact());
    assert_eq!(rt; copy.states(), checked.states());
    assert_eq!(rt; copy.pie().cells.as_slice(), checked.pie().cells.as_slice());
}

fn expect_copy(rt: &impl Abort, alloc: Global, checked: &Checked) -> Result<(), AllocError> {
    let copy = checked.try_copy(alloc)?;
    expect_same(rt, &copy, checked);
    Ok(())
}

fn pie_of_five(alloc: Global) -> Result<Pie, Fail>
    ensures { IfOk result KeepsRules }
{
    let file = decode(alloc, FIVE)?;
    Ok(read(alloc, file.as_slice())?)
}

#[test]
fn a_worked_pie_has_its_fact_its_shape_and_its_states(rt: HostRuntime) -> Result<(), Fail> {
    let copied = {
        let checked = replay(rt.alloc(), pie_of_five(rt.alloc())?)?;
        expect_five(&rt, &checked);
        expect_copy(&rt, rt.alloc(), &checked)
    };
    copied?;
    Ok(())
}

fn at(segment: u16, offset: u32) -> Value
    requires { offset < 10 }
{
    Value::At(Place { segment, offset })
}

// The first state of the program that writes 5 steps to the second.
fn expect_step(rt: &impl Abort, memory: &SegMemory) {
    let start = State {
        pc: at(0, 0),
        ap: at(1, 5),
        fp: at(1, 5),
    };
    let after = State {
        pc: at(0, 2),
        ap: at(1, 6),
        fp: at(1, 5),
    };
    assert_eq!(rt; step_value(memory, start), Ok(after));
}

// A word that writes its immediate to the stack moves pc by two cells and ap by one.
#[test]
fn a_step_moves_the_registers(rt: HostRuntime) -> Result<(), Fail> {
    let memory = {
        let pie = pie_of_five(rt.alloc())?;
        SegMemory::of(rt.alloc(), &pie)
    };
    expect_step(&rt, &memory?);
    Ok(())
}

// Whether the file is written as it is read.
fn is_written_back(alloc: Global, digits: &str) -> Result<bool, Fail> {
    let file = decode(alloc, digits)?;
    let written = {
        let pie = read(alloc, file.as_slice())?;
        write(alloc, &pie)
    };
    Ok(written?.as_slice() == file.as_slice())
}

#[test]
fn named_files_are_written_as_they_are_read(rt: HostRuntime) -> Result<(), Fail> {
    for digits in [
        EMPTY, FIVE, BACK, DOWN_3, DOWN_14, ADDR, PROD, UNDER, JUMP, TALL, RANGE_7, HASH0,
    ] {
        let is_written = is_written_back(rt.alloc(), digits)?;
        assert!(rt; is_written, "{digits}");
    }
    Ok(())
}
