//! What a run begins with: the code, and the frame.

ghost use Rattle.std.specs.Prelude.{◌≡◌, ◌+◌, ◌<◌, map, ◌≤◌, Ok, Err, IfOk, length, None, slice_index, ℕ};
ghost use Rattle.cairo_model.specs.Limits.{most_cells, offset_limit};
ghost use Rattle.cairo_model.specs.Machine.Values.{number as numeral, place};
ghost use Rattle.cairo_model.specs.Segments.{program_segment, execution_segment};
ghost use Rattle.cairo_model.specs.Views.Machine.{datum, registers};
ghost use Rattle.seg_memory.specs.Memory.{IsPut, cell_of, size_of, memory_in};
ghost use Rattle.seg_runner.specs.Starts.{frame_length, start_memory as memory_begun, start_registers, started};
ghost use Rattle.seg_runner.specs.Views.{run_cause};
ghost use Rattle.seg_runner.specs.Working.Seen.{growing};
ghost use Rattle.seg_runner.specs.Working.Running.{HasSevenSizes, with_row, frame_values};

use crate::refusal::RunRefusal;
use cairo_model::limits::MOST_CELLS;
use cairo_model::segments::{EXECUTION, FRAME, PROGRAM};
use cairo_model::{End, Place, State, Value, felt_below};
use casm_text::Code;
use seg_memory::SegMemory;
use std::alloc::Global;

/// The memory that a run of this code begins with.
pub(crate) fn start_memory(alloc: Global, code: &Code) -> Result<SegMemory, End<RunRefusal>>
    requires { length code.now.words.items ≤ most_cells }
    ensures ok { IfOk result (λ memory. growing memory ≡ memory_begun code.now.words.items) }
    ensures fits { IfOk result (λ memory. length code.now.words.items + frame_length ≤ most_cells) }
    ensures sizes { IfOk result HasSevenSizes }
    ensures refused { (e : RunRefusal) → result ≡ Err (End.Refused e) → (main : ℕ) → started code.now.words.items main ≡ Err (run_cause e) }
{
    let size = code.words.len() as u32;
    let frame = FRAME.len() as u32;
    if size + frame > MOST_CELLS {
        return Err(End::Refused(RunRefusal::TooLarge(0)));
    }
    let mut memory = SegMemory::new(alloc, &[size, frame, 0, 0, 0, 0, 0])?;
    put_code(&mut memory, code);
    put_frame(&mut memory);
    Ok(memory)
}

/// The registers that a run begins with.
pub(crate) fn start_state(main: u64) -> State
    requires { main < offset_limit }
    ensures { registers result ≡ start_registers main }
{
    let stack = Value::At(Place {
        segment: EXECUTION,
        offset: FRAME.len() as u32,
    });
    State {
        pc: Value::At(Place {
            segment: PROGRAM,
            offset: main as u32,
        }),
        ap: stack,
        fp: stack,
    }
}

fn put_code(memory: &mut SegMemory, code: &Code)
    requires free { (offset : ℕ) → cell_of memory.old program_segment offset ≡ None }
    requires sizes { slice_index memory.old.sizes program_segment ≡ length code.now.words.items }
    requires few { length code.now.words.items ≤ most_cells }
    ensures sizes { memory.new.sizes ≡ memory.old.sizes }
    ensures cells { memory_in memory.new ≡ with_row (memory_in memory.old) program_segment (map numeral code.now.words.items) }
{
    for offset in 0..code.words.len() {
        let place = Place {
            segment: PROGRAM,
            offset: offset as u32,
        };
        put_cell(memory, place, Value::Number(felt_below(code.words[offset])));
    }
}

fn put_frame(memory: &mut SegMemory)
    requires free { (offset : ℕ) → cell_of memory.old execution_segment offset ≡ None }
    requires sizes { slice_index memory.old.sizes execution_segment ≡ frame_length }
    ensures sizes { memory.new.sizes ≡ memory.old.sizes }
    ensures cells { memory_in memory.new ≡ with_row (memory_in memory.old) execution_segment frame_values }
{
    for offset in 0..FRAME.len() {
        let place = Place {
            segment: EXECUTION,
            offset: offset as u32,
        };
        let start = Place {
            segment: FRAME[offset],
            offset: 0,
        };
        put_cell(memory, place, Value::At(start));
    }
}

// Puts a value where none stands.
fn put_cell(memory: &mut SegMemory, place: Place, value: Value)
    requires inside { place.offset < size_of memory.old place.segment }
    requires free { cell_of memory.old place.segment place.offset ≡ None }
    ensures { IsPut memory.old memory.new place.segment place.offset (datum value) }
{
    match memory.put(place, value) {
        Ok(()) => {}
        Err(_) => unreachable!(),
    }
}
