//! What a run gets at home: the outputs of the hash instances.

ghost use Rattle.std.specs.Prelude.{◌≡◌, ◌+◌, ◌*◌, ◌<◌, ◌≤◌, Ok, Err, OnOk};
ghost use Rattle.builtin_hash.specs.Instances.{cells_per_instance};
ghost use Rattle.cairo_model.specs.Limits.{most_cells};
ghost use Rattle.seg_memory.specs.Memory.{memory_in};
ghost use Rattle.std.specs.Prelude.{slice_index};
ghost use Rattle.cairo_model.specs.Segments.{hash_segment};
ghost use Rattle.seg_runner.specs.Endings.{begun_instances as begun_of, completed, outputs_per_instance, with_outputs, with_words};
ghost use Rattle.seg_runner.specs.Hashes.{outputs_of as outputs_by};
ghost use Rattle.seg_runner.specs.Views.{run_cause};
ghost use Rattle.seg_runner.specs.Working.Seen.{growing};
ghost use Rattle.seg_runner.specs.Working.Running.{HasSevenSizes};

use crate::hashes::{GROUP, INPUTS, output_word, outputs_of};
use crate::puts::{put_where_absent, size_in};
use crate::refusal::RunRefusal;
use cairo_model::segments::HASH;
use cairo_model::{End, Place};
use seg_memory::SegMemory;
use std::alloc::Global;

// The words of a digest.
const OUTPUTS: u32 = 8;

/// Puts the absent outputs of each instance whose inputs stand and are valid, after so many steps.
pub(crate) fn complete(
    alloc: Global,
    memory: &mut SegMemory,
    steps: u32,
) -> Result<(), End<RunRefusal>>
    requires { HasSevenSizes memory.old }
    ensures ok { OnOk result (completed steps (growing memory.old) ≡ Ok (growing memory.new)) }
    ensures keeps { OnOk result (HasSevenSizes memory.new) }
    ensures refused { (e : RunRefusal) → result ≡ Err (End.Refused e) → completed steps (growing memory.old) ≡ Err (run_cause e) }
{
    let count = begun_instances(memory);
    for index in 0..count {
        put_outputs(alloc, memory, index, steps)?;
    }
    Ok(())
}

fn begun_instances(memory: &SegMemory) -> u32
    requires { HasSevenSizes memory.now }
    ensures value { result ≡ begun_of (slice_index memory.now.sizes hash_segment) }
    ensures small { cells_per_instance * result ≤ most_cells + outputs_per_instance }
{
    (size_in(memory, HASH) + OUTPUTS) / GROUP
}

fn put_outputs(
    alloc: Global,
    memory: &mut SegMemory,
    index: u32,
    steps: u32,
) -> Result<(), End<RunRefusal>>
    requires sizes { HasSevenSizes memory.old }
    requires small { cells_per_instance * index < most_cells + outputs_per_instance }
    ensures ok { OnOk result (with_outputs steps (growing memory.old) index (outputs_by (memory_in memory.old) index) ≡ Ok (growing memory.new)) }
    ensures keeps { OnOk result (HasSevenSizes memory.new) }
    ensures refused { (e : RunRefusal) → result ≡ Err (End.Refused e) → with_outputs steps (growing memory.old) index (outputs_by (memory_in memory.old) index) ≡ Err (run_cause e) }
{
    match outputs_of(memory, index) {
        Some(words) => {
            let start = GROUP * index + INPUTS as u32;
            put_words(alloc, memory, start, &words, steps)
        }
        None => Ok(()),
    }
}

// Puts the eight words from an offset of the hash segment on, where nothing stands.
fn put_words(
    alloc: Global,
    memory: &mut SegMemory,
    start: u32,
    words: &[u32; 8],
    steps: u32,
) -> Result<(), End<RunRefusal>>
    requires sizes { HasSevenSizes memory.old }
    requires small { start < 2 * most_cells }
    ensures ok { OnOk result (with_words steps (growing memory.old) start words.now 0 outputs_per_instance ≡ Ok (growing memory.new)) }
    ensures keeps { OnOk result (HasSevenSizes memory.new) }
    ensures refused { (e : RunRefusal) → result ≡ Err (End.Refused e) → with_words steps (growing memory.old) start words.now 0 outputs_per_instance ≡ Err (run_cause e) }
{
    for k in 0..OUTPUTS {
        let place = Place {
            segment: HASH,
            offset: start + k,
        };
        put_where_absent(alloc, memory, place, Some(output_word(words, k)), steps)?;
    }
    Ok(())
}
