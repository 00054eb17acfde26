ghost use Rattle.std.specs.Prelude.{◌≡◌, ◌+◌, ◌^◌, ◌<◌, ◌≤◌, length, OnOk};
ghost use Rattle.cert_format.specs.Working.DraftViews.{partial as partial_of};
ghost use Rattle.cert_format.specs.Working.Taking.{size_of, IsAwaiting, marks_left as marks_to_come, cells_left as cells_to_come, states_left as states_to_come, count_in as counted_in, going, front_kept, front_taken, bases_left as bases_to_come, mark_taken, base_kept, base_taken, cell_count_taken, cell_kept, cell_taken, state_count_taken, state_kept, state_taken, taken, passed_over, nothing};

use crate::fields::{cell_at, felt_at, state_at};
use crate::front::{Front, front_at};
use crate::parts::{
    BASE_BYTES, CELL_BYTES, COUNT_BYTES, FRONT_BYTES, MARK_BYTES, STATE_BYTES, has_magic,
};
use crate::refusal::CertRefusal;
use crate::stage::Stage;
use cairo_model::{FieldState, Kind, TaskMark};
use goldi_field::Felt;
use std::alloc::{AllocError, Global};
use std::mem;

/// What was read of a certificate. Behind the first bad number nothing is kept, but lengths are followed on.
#[derive(Drop)]
pub(crate) struct Partial {
    /// How many bytes were taken.
    pub place: u64,
    pub stage: Stage,
    /// The refusal of the first bad number.
    pub bad: Option<CertRefusal>,
    pub front: Front,
    pub tasks: Vec<TaskMark>,
    /// The row and the bases of the task that is being read.
    pub row: u32,
    pub bases: Vec<Felt>,
    /// Where the number of cells begins.
    pub marks_end: u64,
    pub cells: Vec<(Felt, Felt)>,
    pub states: Vec<FieldState>,
    pub alloc: Global,
}

/// How many bytes the next part has, 0 where none is awaited.
pub(crate) fn size_of_part(stage: Stage) -> usize
    ensures { result ≡ size_of stage }
{
    match stage {
        Stage::Front => FRONT_BYTES,
        Stage::Foreign => 0,
        Stage::Marks(_) => MARK_BYTES,
        Stage::Bases(_, _) => BASE_BYTES,
        Stage::CellCount => COUNT_BYTES,
        Stage::Cells(_) => CELL_BYTES,
        Stage::StateCount => COUNT_BYTES,
        Stage::States(_) => STATE_BYTES,
        Stage::End(_) => 0,
    }
}

fn marks_left(count: u32) -> Stage
    ensures { result ≡ marks_to_come count }
{
    match count {
        0 => Stage::CellCount,
        _ => Stage::Marks(count),
    }
}

fn cells_left(count: u32) -> Stage
    ensures { result ≡ cells_to_come count }
{
    match count {
        0 => Stage::StateCount,
        _ => Stage::Cells(count),
    }
}

fn states_left(place: u64, count: u32) -> Stage
    ensures { result ≡ states_to_come place count }
{
    match count {
        0 => Stage::End(place),
        _ => Stage::States(count),
    }
}

// The number that the first four bytes are.
fn count_in(bytes: &[u8]) -> u32
    requires { 4 ≤ length bytes.now }
    ensures { result ≡ counted_in bytes.now }
{
    u32::from_be_bytes([bytes[0], bytes[1], bytes[2], bytes[3]])
}

impl Partial {
    pub(crate) fn new(alloc: Global) -> Partial
        ensures { partial_of result ≡ nothing }
    {
        let zeros = (Felt::ZERO, Felt::ZERO);
        Partial {
            place: 0,
            stage: Stage::Front,
            bad: None,
            front: Front {
                kind: Kind::Alone,
                output: zeros,
                range: zeros,
                hash: zeros,
            },
            tasks: Vec::new(alloc),
            row: 0,
            bases: Vec::new(alloc),
            marks_end: 0,
            cells: Vec::new(alloc),
            states: Vec::new(alloc),
            alloc,
        }
    }

    /// Takes the bytes of the next part.
    pub(crate) fn take(&mut self, part: &[u8]) -> Result<(), AllocError>
        requires whole { length part.now ≡ size_of self.old.stage }
        requires awaiting { IsAwaiting self.old.stage }
        requires in_all { self.old.place + length part.now < 2 ^ 64 }
        ensures { OnOk result (partial_of self.new ≡ taken (partial_of self.old) part.now) }
    {
        match self.stage {
            Stage::Front => self.take_front(part),
            Stage::Marks(left) => self.take_mark(left - 1, part)?,
            Stage::Bases(left, marks) => self.take_base(left - 1, marks, part)?,
            Stage::CellCount => self.take_cell_count(part),
            Stage::Cells(left) => self.take_cell(left - 1, part)?,
            Stage::StateCount => self.take_state_count(part),
            Stage::States(left) => self.take_state(left - 1, part)?,
            Stage::Foreign => {}
            Stage::End(_) => {}
        }
        Ok(())
    }

    /// Passes over so many bytes where none is awaited.
    pub(crate) fn pass_over(&mut self, count: usize)
        requires { self.old.place + count < 2 ^ 64 }
        ensures { partial_of self.new ≡ passed_over (partial_of self.old) count }
    {
        self.place += count as u64;
    }

    // Goes on to the next part, behind so many bytes.
    fn go_on(&mut self, size: usize, stage: Stage)
        requires { self.old.place + size < 2 ^ 64 }
        ensures { partial_of self.new ≡ going (partial_of self.old) size stage }
    {
        self.place += size as u64;
        self.stage = stage;
    }

    fn take_front(&mut self, part: &[u8])
        requires whole { length part.now ≡ 61 }
        requires in_all { self.old.place + 61 < 2 ^ 64 }
        ensures { partial_of self.new ≡ front_taken (partial_of self.old) part.now }
    {
        if !has_magic(part) {
            self.go_on(FRONT_BYTES, Stage::Foreign);
            return;
        }
        self.keep_front(&part[8..]);
        self.go_on(FRONT_BYTES, marks_left(count_in(&part[57..])));
    }

    fn keep_front(&mut self, bytes: &[u8])
        ensures kept { partial_of self.new ≡ front_kept (partial_of self.old) bytes.now }
        ensures place { self.new.place ≡ self.old.place }
    {
        match front_at(FRONT_BYTES as u64, bytes) {
            Ok((front, _)) => self.front = front,
            Err(refusal) => self.bad = Some(refusal),
        }
    }

    // The row and the number of bases of a task, with so many tasks left behind it.
    fn take_mark(&mut self, marks: u32, part: &[u8]) -> Result<(), AllocError>
        requires whole { length part.now ≡ 8 }
        requires in_all { self.old.place + 8 < 2 ^ 64 }
        ensures { OnOk result (partial_of self.new ≡ mark_taken (partial_of self.old) marks part.now) }
    {
        self.place += MARK_BYTES as u64;
        self.row = count_in(part);
        self.bases = Vec::new(self.alloc);
        self.bases_left(count_in(&part[4..]), marks)
    }

    // So many bases of the task are left, and so many tasks behind it. A task without more bases is whole.
    fn bases_left(&mut self, bases: u32, marks: u32) -> Result<(), AllocError>
        ensures { OnOk result (partial_of self.new ≡ bases_to_come (partial_of self.old) bases marks) }
    {
        if bases > 0 {
            self.stage = Stage::Bases(bases, marks);
            return Ok(());
        }
        let bases = mem::replace(&mut self.bases, Vec::new(self.alloc));
        self.tasks.push(TaskMark {
            row: self.row,
            bases,
        })?;
        self.stage = marks_left(marks);
        Ok(())
    }

    fn take_base(&mut self, bases: u32, marks: u32, part: &[u8]) -> Result<(), AllocError>
        requires in_all { self.old.place + 8 < 2 ^ 64 }
        ensures { OnOk result (partial_of self.new ≡ base_taken (partial_of self.old) bases marks part.now) }
    {
        self.keep_base(part)?;
        self.place += BASE_BYTES as u64;
        self.bases_left(bases, marks)
    }

    fn keep_base(&mut self, part: &[u8]) -> Result<(), AllocError>
        requires in_all { self.old.place + 8 < 2 ^ 64 }
        ensures kept { OnOk result (partial_of self.new ≡ base_kept (partial_of self.old) part.now) }
        ensures place { OnOk result (self.new.place ≡ self.old.place) }
    {
        if self.bad.is_some() {
            return Ok(());
        }
        match felt_at(self.place + BASE_BYTES as u64, part) {
            Ok((base, _)) => self.bases.push(base)?,
            Err(refusal) => self.bad = Some(refusal),
        }
        Ok(())
    }

    fn take_cell_count(&mut self, part: &[u8])
        requires whole { length part.now ≡ 4 }
        requires in_all { self.old.place + 4 < 2 ^ 64 }
        ensures { partial_of self.new ≡ cell_count_taken (partial_of self.old) part.now }
    {
        self.marks_end = self.place;
        self.place += COUNT_BYTES as u64;
        self.stage = cells_left(count_in(part));
    }

    fn take_cell(&mut self, cells: u32, part: &[u8]) -> Result<(), AllocError>
        requires in_all { self.old.place + 16 < 2 ^ 64 }
        ensures { OnOk result (partial_of self.new ≡ cell_taken (partial_of self.old) cells part.now) }
    {
        self.keep_cell(part)?;
        self.place += CELL_BYTES as u64;
        self.stage = cells_left(cells);
        Ok(())
    }

    fn keep_cell(&mut self, part: &[u8]) -> Result<(), AllocError>
        requires in_all { self.old.place + 16 < 2 ^ 64 }
        ensures kept { OnOk result (partial_of self.new ≡ cell_kept (partial_of self.old) part.now) }
        ensures place { OnOk result (self.new.place ≡ self.old.place) }
    {
        if self.bad.is_some() {
            return Ok(());
        }
        match cell_at(self.place + CELL_BYTES as u64, part) {
            Ok((cell, _)) => self.cells.push(cell)?,
            Err(refusal) => self.bad = Some(refusal),
        }
        Ok(())
    }

    fn take_state_count(&mut self, part: &[u8])
        requires whole { length part.now ≡ 4 }
        requires in_all { self.old.place + 4 < 2 ^ 64 }
        ensures { partial_of self.new ≡ state_count_taken (partial_of self.old) part.now }
    {
        self.place += COUNT_BYTES as u64;
        self.stage = states_left(self.place, count_in(part));
    }

    fn take_state(&mut self, states: u32, part: &[u8]) -> Result<(), AllocError>
        requires in_all { self.old.place + 24 < 2 ^ 64 }
        ensures { OnOk result (partial_of self.new ≡ state_taken (partial_of self.old) states part.now) }
    {
        self.keep_state(part)?;
        self.place += STATE_BYTES as u64;
        self.stage = states_left(self.place, states);
        Ok(())
    }

    fn keep_state(&mut self, part: &[u8]) -> Result<(), AllocError>
        requires in_all { self.old.place + 24 < 2 ^ 64 }
        ensures kept { OnOk result (partial_of self.new ≡ state_kept (partial_of self.old) part.now) }
        ensures place { OnOk result (self.new.place ≡ self.old.place) }
    {
        if self.bad.is_some() {
            return Ok(());
        }
        match state_at(self.place + STATE_BYTES as u64, part) {
            Ok((state, _)) => self.states.push(state)?,
            Err(refusal) => self.bad = Some(refusal),
        }
        Ok(())
    }
}
