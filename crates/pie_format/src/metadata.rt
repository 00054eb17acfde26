ghost use Rattle.std.specs.Prelude.{◌≡◌, ◌<◌, Option, Some, None, Result, Ok};
ghost use Rattle.serde_json.specs.View.{view, items_view};
ghost use Rattle.cairo_model.specs.Pie.Files.{metadata_of, wholes_in, wholes_at as list_at, whole_at as number_at, has_four_keys as is_object_of_four};
ghost use Rattle.cairo_model.specs.Machine.Steps.{required};
ghost use Rattle.cairo_model.specs.Working.Answers.{Gives};
ghost use Rattle.cairo_model.specs.declared.read_refusal.ReadRefusal.TheVariants.{BadMetadata};
ghost use Rattle.pie_format.specs.Working.Reading.{metadata_in};
ghost use Rattle.pie_format.specs.Working.ReadingViews.{metadata};

use cairo_model::{End, ReadRefusal};
use serde_json::Value;
use std::alloc::Global;

/// What the metadata of a PIE file says, before its rules are tested.
#[derive(Debug, Drop)]
pub(crate) struct FileMetadata {
    pub version: u64,
    pub main: u64,
    pub steps: u64,
    pub sizes: Vec<u64>,
}

/// Reads the text as JSON.
pub(crate) fn read_metadata(alloc: Global, text: &[u8]) -> Result<FileMetadata, End<ReadRefusal>>
    ensures { Gives metadata result (required BadMetadata (metadata_in text.now)) }
{
    match Value::from_slice(alloc, text) {
        Ok(value) => metadata_of_value(alloc, &value),
        Err(e) if e.is_memory() => Err(End::OutOfMemory),
        Err(_) => Err(End::Refused(ReadRefusal::BadMetadata)),
    }
}

fn metadata_of_value(alloc: Global, value: &Value) -> Result<FileMetadata, End<ReadRefusal>>
    ensures { Gives metadata result (required BadMetadata (metadata_of (view value.now))) }
{
    if !has_four_keys(value) {
        return Err(End::Refused(ReadRefusal::BadMetadata));
    }
    let Some(version) = whole_at(value, "version") else {
        return Err(End::Refused(ReadRefusal::BadMetadata));
    };
    let Some(main) = whole_at(value, "main") else {
        return Err(End::Refused(ReadRefusal::BadMetadata));
    };
    let Some(steps) = whole_at(value, "steps") else {
        return Err(End::Refused(ReadRefusal::BadMetadata));
    };
    let sizes = wholes_at(alloc, value, "sizes")?;
    Ok(FileMetadata {
        version,
        main,
        steps,
        sizes,
    })
}

#[tactic(auto, using(crate::proofs::ReadingSizes::member_counts))]
fn has_four_keys(value: &Value) -> bool
    ensures { result ≡ is_object_of_four (view value.now) }
{
    match value.as_object() {
        Some(object) => object.len() == 4,
        None => false,
    }
}

fn whole_at(value: &Value, key: &str) -> Option<u64>
    ensures { result ≡ number_at key.now (view value.now) }
{
    match value.get(key) {
        Some(found) => found.as_u64(),
        None => None,
    }
}

fn wholes_at(alloc: Global, value: &Value, key: &str) -> Result<Vec<u64>, End<ReadRefusal>>
    ensures { Gives (λ v. v.items) result (required BadMetadata (list_at key.now (view value.now))) }
{
    let Some(found) = value.get(key) else {
        return Err(End::Refused(ReadRefusal::BadMetadata));
    };
    let Some(items) = found.as_array() else {
        return Err(End::Refused(ReadRefusal::BadMetadata));
    };
    wholes_of(alloc, items.as_slice())
}

fn wholes_of(alloc: Global, items: &[Value]) -> Result<Vec<u64>, End<ReadRefusal>>
    ensures { Gives (λ v. v.items) result (required BadMetadata (wholes_in (items_view items.now))) }
{
    let mut wholes = Vec::new(alloc);
    for item in items {
        let Some(whole) = item.as_u64() else {
            return Err(End::Refused(ReadRefusal::BadMetadata));
        };
        wholes.push(whole)?;
    }
    Ok(wholes)
}
