//! Cells take a value once, and a segment that grows keeps its cells.

ghost use Rattle.std.specs.Prelude.{◌≡◌, ◌<◌, IfOk};
ghost use Rattle.cairo_model.specs.Pie.Records.{KeepsRules};
ghost use Rattle.cairo_model.specs.Views.Pie.{memory_cell};
ghost use Rattle.cairo_model.specs.Machine.Values.{number as numeral};
ghost use Rattle.cairo_model.specs.Views.Machine.{datum};

use cairo_model::{Pie, PieCell, Place, Value, felt_of};
use seg_memory::{PutFault, SegMemory};
use std::alloc::{AllocError, Global};
use std::test::Fail;

fn at(segment: u16, offset: u32) -> Place
    requires { offset < 1000 }
    ensures segment { result.segment ≡ segment }
    ensures offset { result.offset ≡ offset }
{
    Place { segment, offset }
}

fn number(n: u32) -> Value
    ensures { datum result ≡ numeral n }
{
    Value::Number(felt_of(n))
}

// How these numbers are put at these places.
fn put_two(
    memory: &mut SegMemory,
    first: (Place, u32),
    second: (Place, u32),
) -> [Result<(), PutFault>; 2]
    ensures { memory.new.sizes ≡ memory.old.sizes }
{
    let first = memory.put(first.0, number(first.1));
    let second = memory.put(second.0, number(second.1));
    [first, second]
}

fn found_at(memory: &SegMemory, places: [Place; 3]) -> [Option<Value>; 3] {
    let [first, second, third] = places;
    [memory.get(first), memory.get(second), memory.get(third)]
}

#[test]
fn a_cell_takes_a_value_once(rt: HostRuntime) -> Result<(), Fail> {
    let (before, ends, found) = {
        let mut memory = SegMemory::new(rt.alloc(), &[2, 0, 3])?;
        let before = memory.get(at(0, 0));
        let ends = put_two(&mut memory, (at(0, 0), 7), (at(0, 0), 8));
        let found = found_at(&memory, [at(0, 0), at(0, 1), at(2, 0)]);
        (before, ends, found)
    };
    assert_eq!(rt; before, None);
    assert_eq!(rt; ends, [Ok(()), Err(PutFault::Taken(number(7)))]);
    assert_eq!(rt; found, [Some(number(7)), None, None]);
    Ok(())
}

#[test]
fn a_value_outside_is_refused_with_the_size(rt: HostRuntime) -> Result<(), Fail> {
    let (first, last) = {
        let mut memory = SegMemory::new(rt.alloc(), &[2, 0, 3])?;
        let first = put_two(&mut memory, (at(0, 2), 1), (at(1, 0), 1));
        (first, put_two(&mut memory, (at(2, 4), 1), (at(3, 0), 1)))
    };
    assert_eq!(rt;
        first,
        [Err(PutFault::Outside(2)), Err(PutFault::Outside(0))]
    );
    assert_eq!(rt;
        last,
        [Err(PutFault::Outside(3)), Err(PutFault::Outside(0))]
    );
    Ok(())
}

#[test]
fn a_segment_that_grows_keeps_the_map(rt: HostRuntime) -> Result<(), Fail> {
    let (ends, found, later, nine, sizes) = {
        let mut memory = SegMemory::new(rt.alloc(), &[2, 0, 3])?;
        let ends = put_two(&mut memory, (at(0, 1), 7), (at(2, 0), 8));
        memory.grow(rt.alloc(), 0, 4)?;
        let found = found_at(&memory, [at(0, 1), at(0, 2), at(2, 0)]);
        let later = put_two(&mut memory, (at(0, 3), 9), (at(0, 4), 9));
        let nine = memory.get(at(0, 3));
        (ends, found, later, nine, (memory.size(0), memory.size(3)))
    };
    assert_eq!(rt; ends, [Ok(()), Ok(())]);
    assert_eq!(rt; found, [Some(number(7)), None, Some(number(8))]);
    assert_eq!(rt; later, [Ok(()), Err(PutFault::Outside(4))]);
    assert_eq!(rt; nine, Some(number(9)));
    assert_eq!(rt; sizes, (Some(4), None));
    Ok(())
}

#[test]
fn a_page_is_added_where_one_ends(rt: HostRuntime) -> Result<(), Fail> {
    let (ends, added, later, found) = {
        let mut memory = SegMemory::new(rt.alloc(), &[256])?;
        let ends = put_two(&mut memory, (at(0, 255), 7), (at(0, 256), 8));
        memory.grow(rt.alloc(), 0, 257)?;
        let added = (memory.get(at(0, 255)), memory.get(at(0, 256)));
        let later = put_two(&mut memory, (at(0, 256), 8), (at(0, 257), 9));
        let found = (memory.get(at(0, 255)), memory.get(at(0, 256)));
        (ends, added, later, found)
    };
    assert_eq!(rt; ends, [Ok(()), Err(PutFault::Outside(256))]);
    assert_eq!(rt; added, (Some(number(7)), None));
    assert_eq!(rt; later, [Ok(()), Err(PutFault::Outside(257))]);
    assert_eq!(rt; found, (Some(number(7)), Some(number(8))));
    Ok(())
}

#[test]
fn an_address_is_a_place(rt: HostRuntime) -> Result<(), Fail> {
    let (end, found, absent) = {
        let mut memory = SegMemory::new(rt.alloc(), &[2])?;
        let end = memory.put(at(0, 1), number(7));
        let found = memory.at(Value::At(at(0, 1)));
        (end, found, memory.at(number(1)))
    };
    assert_eq!(rt; end, Ok(()));
    assert_eq!(rt; (found, absent), (Some(number(7)), None));
    Ok(())
}

// Two cells of the first segment of seven.
fn two_cells(alloc: Global) -> Result<Pie, AllocError>
    ensures { IfOk result KeepsRules }
{
    let sizes = vec![in alloc; 2, 0, 0, 0, 0, 0, 0]?;
    let cells = vec![in alloc; cell(0, 7), cell(1, 8)]?;
    Ok(Pie {
        main: 0,
        steps: 0,
        sizes,
        cells,
    })
}

fn cell(offset: u32, n: u32) -> PieCell
    requires { offset < 10 }
    ensures { memory_cell result ≡ record { segment = 0; offset = offset; value = numeral n } }
{
    PieCell {
        place: at(0, offset),
        value: number(n),
    }
}

// What is found at three places, the size of the first segment, and whether the cells are these.
fn seen_in(
    alloc: Global,
    memory: &SegMemory,
    cells: &[PieCell],
) -> Result<([Option<Value>; 3], Option<u32>, bool), AllocError> {
    let found = found_at(memory, [at(0, 0), at(0, 1), at(0, 2)]);
    let listed = memory.cells(alloc)?;
    Ok((found, memory.size(0), listed.as_slice() == cells))
}

#[test]
fn a_memory_has_the_cells_of_a_pie(rt: HostRuntime) -> Result<(), Fail> {
    let seen = {
        let pie = two_cells(rt.alloc())?;
        let memory = SegMemory::of(rt.alloc(), &pie)?;
        seen_in(rt.alloc(), &memory, pie.cells.as_slice())
    };
    let (found, size, has_cells) = seen?;
    assert_eq!(rt; found, [Some(number(7)), Some(number(8)), None]);
    assert_eq!(rt; (size, has_cells), (Some(2), true));
    Ok(())
}
