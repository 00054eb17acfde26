ghost use Rattle.std.specs.Prelude.{◌≡◌, ◌≤◌, ◌<◌, ◌^◌, length, IfOk, OnOk};
ghost use Rattle.serde_json.specs.View.{view};
ghost use Rattle.cairo_model.specs.Pie.Records.{KeepsRules};
ghost use Rattle.cairo_model.specs.Pie.Files.{IsMetadata, first_version};
ghost use Rattle.pie_format.specs.Writing.{metadata_text};
ghost use Rattle.pie_format.specs.Working.MetadataData.{metadata_data, sizes_data};

use cairo_model::Pie;
use serde_json::{Value, json};
use std::alloc::{AllocError, Global};

/// The text of the metadata of a PIE.
pub(crate) fn text_of(alloc: Global, pie: &Pie) -> Result<Vec<u8>, AllocError>
    requires { KeepsRules pie.now }
    ensures text { IfOk result (λ text. text.items ≡ metadata_text pie.now) }
    ensures says { IfOk result (λ text. IsMetadata text.items (first_version pie.now)) }
    ensures short { IfOk result (λ text. length text.items ≤ 600) }
{
    let value = metadata_value(alloc, pie)?;
    let text = value.to_vec(alloc)?;
    Ok(text)
}

fn metadata_value(alloc: Global, pie: &Pie) -> Result<Value, AllocError>
    ensures value { IfOk result (λ value. view value ≡ metadata_data pie.now) }
    ensures main { OnOk result (pie.now.main < 2 ^ 64) }
{
    let sizes = sizes_value(alloc, pie.sizes.as_slice())?;
    json!(in alloc; {"main": pie.main, "sizes": sizes, "steps": pie.steps, "version": 1u64})
}

fn sizes_value(alloc: Global, sizes: &[u32]) -> Result<Value, AllocError>
    ensures { IfOk result (λ value. view value ≡ sizes_data sizes.now) }
{
    let mut items = Vec::new(alloc);
    for size in sizes {
        items.push(Value::from(*size))?;
    }
    Ok(Value::Array(items))
}
