ghost use Rattle.std.specs.Prelude.{◌≡◌, ◌++◌, OnOk};
ghost use Rattle.cairo_model.specs.Texts.Refusals.{read_text, refusal_text, replay_text};
ghost use Rattle.cairo_model.specs.Views.ReplayRefusals.{replay_cause};

use crate::read_refusal::ReadRefusal;
use crate::refusal::Refusal;
use crate::replay_refusal::ReplayRefusal;
use crate::texts::numbers::{number_of_fault, put_number, put_pair, put_value};
use std::alloc::{AllocError, Global};

/// Appends the number of a refusal and its fields, each after one space (docs/PIE.md).
pub fn put_refusal(alloc: Global, text: &mut Vec<u8>, refusal: Refusal) -> Result<(), AllocError>
    ensures { OnOk result (text.new.items ≡ text.old.items ++ refusal_text refusal) }
{
    match refusal {
        Refusal::Read(refusal) => put_read_refusal(alloc, text, refusal),
        Refusal::Replay(refusal) => put_replay_refusal(alloc, text, refusal),
    }
}

// Appends the number of a file's refusal and its field.
fn put_read_refusal(
    alloc: Global,
    text: &mut Vec<u8>,
    refusal: ReadRefusal,
) -> Result<(), AllocError>
    ensures { OnOk result (text.new.items ≡ text.old.items ++ read_text refusal) }
{
    match refusal {
        ReadRefusal::TooLong(length) => put_pair(alloc, text, 1, length),
        ReadRefusal::BadMagic => put_number(alloc, text, 2),
        ReadRefusal::Truncated(length) => put_pair(alloc, text, 3, length),
        ReadRefusal::BadMetadata => put_number(alloc, text, 4),
        ReadRefusal::BadVersion(version) => put_pair(alloc, text, 5, version),
        ReadRefusal::BadSizes => put_number(alloc, text, 6),
        ReadRefusal::TooManySegments(count) => put_pair(alloc, text, 7, count),
        ReadRefusal::TooLarge(sum) => put_pair(alloc, text, 8, sum),
        ReadRefusal::TooManySteps(count) => put_pair(alloc, text, 9, count),
        ReadRefusal::BadCell(index) => put_pair(alloc, text, 10, u64::from(index)),
        ReadRefusal::TrailingBytes(count) => put_pair(alloc, text, 11, count),
    }
}

/// Appends the number of a replay's refusal and its fields.
pub fn put_replay_refusal(
    alloc: Global,
    text: &mut Vec<u8>,
    refusal: ReplayRefusal,
) -> Result<(), AllocError>
    ensures { OnOk result (text.new.items ≡ text.old.items ++ replay_text (replay_cause refusal)) }
{
    match refusal {
        ReplayRefusal::ProgramCell(offset) => put_pair(alloc, text, 20, u64::from(offset)),
        ReplayRefusal::BadMain(main) => put_pair(alloc, text, 21, main),
        ReplayRefusal::BadFrame(index) => put_pair(alloc, text, 22, u64::from(index)),
        ReplayRefusal::OutputCell(offset) => put_pair(alloc, text, 23, u64::from(offset)),
        ReplayRefusal::RangeCell(offset) => put_pair(alloc, text, 24, u64::from(offset)),
        ReplayRefusal::HashInstance(index) => put_pair(alloc, text, 25, u64::from(index)),
        ReplayRefusal::Step(number, fault) => {
            put_pair(alloc, text, 26, u64::from(number))?;
            put_number(alloc, text, number_of_fault(fault))
        }
        ReplayRefusal::NotHome(pc) => {
            put_number(alloc, text, 27)?;
            put_value(alloc, text, pc)
        }
        ReplayRefusal::WrongFrame(fp) => {
            put_number(alloc, text, 28)?;
            put_value(alloc, text, fp)
        }
        ReplayRefusal::StopPointer(index) => put_pair(alloc, text, 29, u64::from(index)),
    }
}
