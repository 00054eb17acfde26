ghost use Rattle.std.specs.Prelude.{◌≡◌, ◌<◌, ◌^◌, sum, true, IfOk, None};
ghost use Rattle.cairo_model.specs.Limits.{offset_limit};
ghost use Rattle.cairo_model.specs.Working.Answers.{Gives};
ghost use Rattle.pie_format.specs.Working.Reading.{all_below as are_below, has_sizes as are_sizes, metadata_fault as fault_in, metadata_at};
ghost use Rattle.pie_format.specs.Working.ReadingViews.{metadata};

use crate::metadata::{FileMetadata, read_metadata};
use cairo_model::limits::{LEAST_SEGMENTS, MOST_CELLS, MOST_SEGMENTS, MOST_STEPS, OFFSET_LIMIT};
use cairo_model::segments::{RETURN_FP, RETURN_PC};
use cairo_model::{End, ReadRefusal};
use std::alloc::{AllocError, Global};

/// The metadata that the text is, where it keeps the rules.
pub(crate) fn file_metadata(alloc: Global, text: &[u8]) -> Result<FileMetadata, End<ReadRefusal>>
    ensures exact { Gives metadata result (metadata_at text.now) }
    ensures kept { IfOk result (λ m. fault_in (metadata m) ≡ None) }
{
    let found = read_metadata(alloc, text)?;
    match metadata_fault(&found) {
        Some(refusal) => Err(End::Refused(refusal)),
        None => Ok(found),
    }
}

fn metadata_fault(found: &FileMetadata) -> Option<ReadRefusal>
    ensures { result ≡ fault_in (metadata found.now) }
{
    if found.version != 1 {
        return Some(ReadRefusal::BadVersion(found.version));
    }
    let sizes = found.sizes.as_slice();
    if !has_sizes(sizes) {
        return Some(ReadRefusal::BadSizes);
    }
    if sizes.len() > MOST_SEGMENTS {
        return Some(ReadRefusal::TooManySegments(sizes.len() as u64));
    }
    let total = total_of(sizes);
    if total > u64::from(MOST_CELLS) {
        return Some(ReadRefusal::TooLarge(total));
    }
    if found.steps > u64::from(MOST_STEPS) {
        return Some(ReadRefusal::TooManySteps(found.steps));
    }
    None
}

fn has_sizes(sizes: &[u64]) -> bool
    ensures { result ≡ are_sizes sizes.now }
{
    sizes.len() >= LEAST_SEGMENTS
        && all_below(u64::from(OFFSET_LIMIT), sizes)
        && sizes[RETURN_FP as usize] == 0
        && sizes[RETURN_PC as usize] == 0
}

fn all_below(limit: u64, sizes: &[u64]) -> bool
    ensures { result ≡ are_below limit sizes.now }
{
    for size in sizes {
        if *size >= limit {
            return false;
        }
    }
    true
}

fn total_of(sizes: &[u64]) -> u64
    requires { sum sizes.now < 2 ^ 64 }
    ensures { result ≡ sum sizes.now }
{
    sizes.iter().sum()
}

/// The sizes in 32 bits.
pub(crate) fn narrowed(alloc: Global, sizes: &[u64]) -> Result<Vec<u32>, AllocError>
    requires { are_below offset_limit sizes.now ≡ true }
    ensures { IfOk result (λ v. v.items ≡ sizes.now) }
{
    let mut narrow = Vec::new(alloc);
    for size in sizes {
        narrow.push(*size as u32)?;
    }
    Ok(narrow)
}
