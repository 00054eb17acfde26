ghost use Rattle.std.specs.Prelude.{◌≡◌, ◌-◌, ◌/◌, ◌%◌, ◌<◌, ◌≤◌, ◌++◌, [], length, get_or, set, replicate, option_map, Some, None, IfOk, OnOk, OnErr};
ghost use Rattle.cairo_model.specs.Limits.{most_cells};
ghost use Rattle.cairo_model.specs.Views.Machine.{datum};
ghost use Rattle.seg_memory.specs.Working.Pages.{page_cells};

use cairo_model::Value;
use std::alloc::{AllocError, Global};
use std::marker::Model;

/// How many cells a page has: four KiB of them, so that a segment of a few cells takes one page of the machine's memory.
const PAGE_CELLS: u32 = 256;

/// The cells of one segment, seen as their list. They stand in pages, the last of which may have room for more. Pages are
/// added where the segment grows, and no cell is moved.
#[derive(Debug, Drop)]
pub(crate) struct Segment {
    size: u32,
    pages: Vec<Vec<Option<Value>>>,
}

impl Model for Segment {
    ghost use Rattle.std.specs.Prelude.{List, Option, map, option_map};
    ghost use Rattle.cairo_model.specs.Machine.Values.{Datum};
    ghost use Rattle.cairo_model.specs.Views.Machine.{datum};
    ghost use Rattle.seg_memory.specs.Working.Pages.{IsPaged, listed, page_cell};

    ghost Value = { List (Option Datum) };

    ghost view = { λ s. listed (page_cell (map (λ page. map (λ cell. option_map datum cell) page.items) s.pages.items)) s.size };

    ghost invariant = { λ s. IsPaged (map (λ page. map (λ cell. option_map datum cell) page.items) s.pages.items) s.size };
}

impl Segment {
    /// A segment of no cells. Takes no memory.
    pub(crate) fn new(alloc: Global) -> Segment
        ensures { result ≡ [] }
    {
        Segment {
            size: 0,
            pages: Vec::new(alloc),
        }
    }

    /// Its size in cells.
    pub(crate) fn size(&self) -> u32
        ensures { result ≡ length self.now }
    {
        self.size
    }

    /// What stands in a cell, None outside as well.
    pub(crate) fn get(&self, offset: u32) -> Option<Value>
        ensures { option_map datum result ≡ get_or self.now offset None }
    {
        if offset >= self.size {
            return None;
        }
        self.pages[page_of(offset)][index_of(offset)]
    }

    /// Puts a value into a cell inside, over what stands there.
    pub(crate) fn put(&mut self, offset: u32, value: Value)
        requires { offset < length self.old }
        ensures { self.new ≡ set self.old offset (Some (datum value)) }
    {
        self.pages[page_of(offset)][index_of(offset)] = Some(value);
    }

    /// Adds cells with no value up to a size. After want of memory nothing differs.
    pub(crate) fn grow(&mut self, alloc: Global, size: u32) -> Result<(), AllocError>
        requires larger { length self.old ≤ size }
        requires in_all { size ≤ most_cells }
        ensures ok { OnOk result (self.new ≡ self.old ++ replicate (size - length self.old) None) }
        ensures err { OnErr result (self.new ≡ self.old) }
    {
        let pages = ((size + (PAGE_CELLS - 1)) / PAGE_CELLS) as usize;
        while self.pages.len() < pages {
            self.pages.push(empty_page(alloc)?)?;
        }
        self.size = size;
        Ok(())
    }
}

// The page that a cell stands in.
fn page_of(offset: u32) -> usize
    ensures { result ≡ offset / page_cells }
{
    (offset / PAGE_CELLS) as usize
}

// Where in its page a cell stands.
fn index_of(offset: u32) -> usize
    ensures { result ≡ offset % page_cells }
{
    (offset % PAGE_CELLS) as usize
}

// A page of cells with no value.
fn empty_page(alloc: Global) -> Result<Vec<Option<Value>>, AllocError>
    ensures { IfOk result (λ page. page.items ≡ replicate page_cells None) }
{
    let mut page = Vec::new(alloc);
    page.resize(PAGE_CELLS as usize, None)?;
    Ok(page)
}
