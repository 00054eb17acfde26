ghost use Rattle.std.specs.Prelude.{◌≡◌, ◌<◌, None, IfOk};
ghost use Rattle.cairo_model.specs.Pie.Records.{KeepsRules, memory_of};
ghost use Rattle.cairo_model.specs.Views.Machine.{datum};
ghost use Rattle.seg_memory.specs.Memory.{IsPut, HoldsCells, cell_of, size_of, memory_in};

use crate::memory::SegMemory;
use cairo_model::{Pie, PieCell};
use std::alloc::{AllocError, Global};

impl SegMemory {
    /// The memory of a PIE: its segments, and each of its cells.
    pub fn of(alloc: Global, pie: &Pie) -> Result<SegMemory, AllocError>
        requires { KeepsRules pie.now }
        ensures sizes { IfOk result (λ m. m.sizes ≡ pie.now.sizes) }
        ensures cells { IfOk result (λ m. HoldsCells m pie.now.cells) }
        ensures memory { IfOk result (λ m. memory_in m ≡ memory_of pie.now.cells) }
    {
        let mut memory = SegMemory::new(alloc, pie.sizes.as_slice())?;
        for cell in &pie.cells {
            put_cell(&mut memory, *cell);
        }
        Ok(memory)
    }
}

// Puts a cell where no value stands.
fn put_cell(memory: &mut SegMemory, cell: PieCell)
    requires inside { cell.place.offset < size_of memory.old cell.place.segment }
    requires free { cell_of memory.old cell.place.segment cell.place.offset ≡ None }
    ensures { IsPut memory.old memory.new cell.place.segment cell.place.offset (datum cell.value) }
{
    match memory.put(cell.place, cell.value) {
        Ok(()) => {}
        Err(_) => unreachable!(),
    }
}
