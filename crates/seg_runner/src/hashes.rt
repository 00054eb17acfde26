//! What the hash builtin gives for the inputs that stand in its segment.

ghost use Rattle.std.specs.Prelude.{◌≡◌, ◌+◌, ◌*◌, ◌<◌, ◌≤◌, ◌^◌, ◌↔◌, nat_lt, length, option_map, All, IsTrue};
ghost use Rattle.std.specs.List.{list_all};
ghost use Rattle.builtin_hash.specs.Instances.{cells_per_instance};
ghost use Rattle.cairo_model.specs.Limits.{offset_limit};
ghost use Rattle.cairo_model.specs.Views.Machine.{datum};
ghost use Rattle.seg_memory.specs.Memory.{memory_in};
ghost use Rattle.seg_runner.specs.Hashes.{digest_of as digest_by, hash_output as hash_output_of, hashed_number, inputs_of as inputs_by, inputs_per_instance, outputs_of as outputs_by, output_word as word_of};

use builtin_hash::{CELLS_PER_INSTANCE, instance};
use cairo_model::segments::HASH;
use cairo_model::{Place, Value, felt_of};
use goldi_field::Felt;
use seg_memory::SegMemory;

/// The cells of an instance, in the width of offsets.
pub(crate) const GROUP: u32 = CELLS_PER_INSTANCE as u32;

/// The cells of an instance that are hashed: eight words and four numbers.
pub(crate) const INPUTS: usize = 12;

/// The value of a cell that is an output of its instance, where the inputs stand and are valid.
#[tactic(auto, unfolding(crate::specs::Hashes::hash_output))]
pub(crate) fn hash_output(memory: &SegMemory, place: Place) -> Option<Value>
    ensures { option_map datum result ≡ hash_output_of (memory_in memory.now) place.segment place.offset }
{
    let k = place.offset % GROUP;
    if place.segment != HASH || k < INPUTS as u32 {
        return None;
    }
    let words = outputs_of(memory, place.offset / GROUP)?;
    Some(output_word(&words, k - INPUTS as u32))
}

/// One word of what an instance gives.
pub(crate) fn output_word(words: &[u32; 8], k: u32) -> Value
    requires { k < 8 }
    ensures { datum result ≡ word_of words.now k }
{
    Value::Number(felt_of(words[k as usize]))
}

/// What the instance of this index gives, where its inputs stand and are valid.
#[tactic(auto, unfolding(crate::specs::Hashes::outputs_of))]
pub(crate) fn outputs_of(memory: &SegMemory, index: u32) -> Option<[u32; 8]>
    requires { cells_per_instance * index + inputs_per_instance ≤ offset_limit }
    ensures { result ≡ outputs_by (memory_in memory.now) index }
{
    let inputs = inputs_of(memory, index)?;
    digest_of(&inputs)
}

// The numbers that an instance hashes, if each stands.
fn inputs_of(memory: &SegMemory, index: u32) -> Option<[u64; INPUTS]>
    requires { cells_per_instance * index + inputs_per_instance ≤ offset_limit }
    ensures { result ≡ inputs_by (memory_in memory.now) index }
{
    let mut numbers = [0; INPUTS];
    for k in 0..INPUTS {
        let Some(n) = number_at(memory, GROUP * index + k as u32) else {
            return None;
        };
        numbers[k] = n.value();
    }
    Some(numbers)
}

// The number that stands at an offset of the hash segment, if one does.
fn number_at(memory: &SegMemory, offset: u32) -> Option<Felt>
    requires { offset < offset_limit }
    ensures { option_map (λ n. n.number) result ≡ hashed_number (memory_in memory.now) offset }
{
    match memory.get(Place {
        segment: HASH,
        offset,
    })? {
        Value::Number(n) => Some(n),
        Value::At(_) => None,
    }
}

fn digest_of(inputs: &[u64; INPUTS]) -> Option<[u32; 8]>
    ensures { result ≡ digest_by inputs.now }
{
    let words = &inputs[..8];
    if !are_words(words) {
        return None;
    }
    Some(instance(eight_words(words), four_numbers(&inputs[8..])))
}

fn are_words(numbers: &[u64]) -> bool
    ensures each { IsTrue result ↔ All (λ n. n < 2 ^ 32) numbers.now }
    ensures value { result ≡ list_all (λ n. nat_lt n (2 ^ 32)) numbers.now }
{
    numbers.iter().all(|number| *number < 1 << 32)
}

fn eight_words(numbers: &[u64]) -> [u32; 8]
    requires eight { length numbers.now ≡ 8 }
    requires words { All (λ n. n < 2 ^ 32) numbers.now }
    ensures { result ≡ numbers.now }
{
    [
        numbers[0] as u32,
        numbers[1] as u32,
        numbers[2] as u32,
        numbers[3] as u32,
        numbers[4] as u32,
        numbers[5] as u32,
        numbers[6] as u32,
        numbers[7] as u32,
    ]
}

fn four_numbers(numbers: &[u64]) -> [u64; 4]
    requires { length numbers.now ≡ 4 }
    ensures { result ≡ numbers.now }
{
    [numbers[0], numbers[1], numbers[2], numbers[3]]
}
