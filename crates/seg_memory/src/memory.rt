ghost use Rattle.std.specs.Prelude.{ℕ, ◌≡◌, ◌<◌, ◌≤◌, length, map, sum, replicate, slice_get, slice_set, option_map, Option, Some, None, Err, IsOk, IfOk, OnOk, OnErr, ◌↔◌};
ghost use Rattle.cairo_model.specs.Limits.{most_cells, most_segments};
ghost use Rattle.cairo_model.specs.Machine.Values.{Datum};
ghost use Rattle.cairo_model.specs.Pie.Records.{Rise};
ghost use Rattle.cairo_model.specs.Views.Machine.{datum};
ghost use Rattle.cairo_model.specs.Views.Pie.{memory_cell};
ghost use Rattle.seg_memory.specs.Memory.{IsPut, HoldsSame, IsEmpty, cell_of, size_of, memory_in};

use crate::listing::add_segment;
use crate::put_fault::PutFault;
use crate::segment::Segment;
use cairo_model::{PieCell, Place, Value};
use std::alloc::{AllocError, Global};
use std::marker::Model;

/// A memory of segments, seen as their sizes and a finite map from places to values. A cell takes a value once.
#[derive(Debug, Drop)]
pub struct SegMemory {
    segments: Vec<Segment>,
}

impl Model for SegMemory {
    ghost use Rattle.seg_memory.specs.Memory.{MemoryRecord};
    ghost use Rattle.seg_memory.specs.Working.Pages.{AreFew, seen};

    ghost Value = { MemoryRecord };

    ghost view = { λ m. seen m.segments.items };

    ghost invariant = { λ m. AreFew m.segments.items };
}

impl SegMemory {
    /// A memory of segments of these sizes, in cells, in which no value stands.
    pub fn new(alloc: Global, sizes: &[u32]) -> Result<SegMemory, AllocError>
        requires few { length sizes.now ≤ most_segments }
        requires in_all { sum sizes.now ≤ most_cells }
        ensures sizes { IfOk result (λ m. m.sizes ≡ sizes.now) }
        ensures empty { IfOk result IsEmpty }
    {
        let mut segments = Vec::new(alloc);
        for size in sizes {
            segments.push(empty_segment(alloc, *size)?)?;
        }
        Ok(SegMemory { segments })
    }

    /// The value that stands at a place. Takes no memory, and constant time.
    pub fn get(&self, place: Place) -> Option<Value>
        ensures value { option_map datum result ≡ cell_of self.now place.segment place.offset }
        ensures outside { size_of self.now place.segment ≤ place.offset → result ≡ None }
    {
        let index = usize::from(place.segment);
        if index >= self.segments.len() {
            return None;
        }
        self.segments[index].get(place.offset)
    }

    /// The value at an address. A number as an address has no cell.
    pub fn at(&self, address: Value) -> Option<Value>
        ensures { option_map datum result ≡ memory_in self.now (datum address) }
    {
        match address {
            Value::Number(_) => None,
            Value::At(place) => self.get(place),
        }
    }

    /// The size of a segment in cells, if there is such a segment.
    pub fn size(&self, segment: u16) -> Option<u32>
        ensures { result ≡ slice_get self.now.sizes segment }
    {
        let index = usize::from(segment);
        if index >= self.segments.len() {
            return None;
        }
        Some(self.segments[index].size())
    }

    // The size of a segment in cells, 0 where there is none.
    fn cells_in(&self, segment: u16) -> u32
        ensures { result ≡ size_of self.now segment }
    {
        let index = usize::from(segment);
        if index >= self.segments.len() {
            return 0;
        }
        self.segments[index].size()
    }

    /// The cells in which a value stands, in the order of segments and offsets. Of the memory of a PIE (`of`) they are its
    /// cells.
    pub fn cells(&self, alloc: Global) -> Result<Vec<PieCell>, AllocError>
        ensures cells { IfOk result (λ cells. map memory_cell cells.items ≡ self.now.cells) }
        ensures rise { IfOk result (λ cells. Rise (map memory_cell cells.items)) }
    {
        let mut cells = Vec::new(alloc);
        for segment in 0..self.segments.len() {
            add_segment(
                self,
                segment as u16,
                self.segments[segment].size(),
                &mut cells,
            )?;
        }
        Ok(cells)
    }

    /// Puts a value at a place inside its segment where none stands. Takes no memory, and constant time.
    pub fn put(&mut self, place: Place, value: Value) -> Result<(), PutFault>
        ensures put { OnOk result (IsPut self.old self.new place.segment place.offset (datum value)) }
        ensures ok { IsOk result ↔ ((place.offset < size_of self.old place.segment) × (cell_of self.old place.segment place.offset ≡ None)) }
        ensures taken { (v : Value) → result ≡ Err (PutFault.Taken v) → cell_of self.old place.segment place.offset ≡ Some (datum v) }
        ensures stands { (d : Datum) → cell_of self.old place.segment place.offset ≡ Some d → (v : Value) × (result ≡ Err (PutFault.Taken v)) }
        ensures outside { (n : ℕ) → (result ≡ Err (PutFault.Outside n)) ↔ ((n ≡ size_of self.old place.segment) × (n ≤ place.offset)) }
        ensures sizes { self.new.sizes ≡ self.old.sizes }
        ensures err { OnErr result (self.new ≡ self.old) }
    {
        let size = self.cells_in(place.segment);
        if place.offset >= size {
            return Err(PutFault::Outside(size));
        }
        if let Some(taken) = self.get(place) {
            return Err(PutFault::Taken(taken));
        }
        self.segments[usize::from(place.segment)].put(place.offset, value);
        Ok(())
    }

    /// Raises the size of a segment: it gets pages, and no cell is moved. After want of memory nothing differs.
    pub fn grow(&mut self, alloc: Global, segment: u16, size: u32) -> Result<(), AllocError>
        requires there { segment < length self.old.sizes }
        requires larger { size_of self.old segment ≤ size }
        requires in_all { sum (slice_set self.old.sizes segment size) ≤ most_cells }
        ensures sizes { OnOk result (self.new.sizes ≡ slice_set self.old.sizes segment size) }
        ensures keeps { OnOk result (HoldsSame self.old self.new) }
        ensures err { OnErr result (self.new ≡ self.old) }
    {
        self.segments[usize::from(segment)].grow(alloc, size)
    }
}

// A segment of so many cells with no value.
fn empty_segment(alloc: Global, size: u32) -> Result<Segment, AllocError>
    requires { size ≤ most_cells }
    ensures { IfOk result (λ cells. cells ≡ replicate size None) }
{
    let mut segment = Segment::new(alloc);
    segment.grow(alloc, size)?;
    Ok(segment)
}
