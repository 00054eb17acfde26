ghost use Rattle.std.specs.Prelude.{◌≡◌, ◌++◌, ◌<◌, ◌^◌, length, map, IfOk, OnOk};
ghost use Rattle.std.specs.Int.{w16, w32, w64, to_be_bytes};
ghost use Rattle.cairo_model.specs.Pie.Records.{KeepsRules};
ghost use Rattle.cairo_model.specs.Pie.Files.{tag_of as tag_number, payload_of as payload_number, cell_bytes, text_bytes, cells_bytes, PieBytes};
ghost use Rattle.cairo_model.specs.Views.Pie.{memory_cell};
ghost use Rattle.cairo_model.specs.Views.Machine.{datum};
ghost use Rattle.pie_format.specs.Writing.{file_of};

use crate::cell_reading::place_number;
use crate::file_parts::MAGIC;
use crate::metadata_writing::text_of;
use cairo_model::{Pie, PieCell, Value};
use std::alloc::{AllocError, Global};

/// The file of a PIE whose metadata is compact JSON with its keys in order.
pub fn write(alloc: Global, pie: &Pie) -> Result<Vec<u8>, AllocError>
    requires { KeepsRules pie.now }
    // What is written is a file of the PIE, so that `read` gives it back (`one_pie`).
    ensures file { IfOk result (λ bytes. PieBytes bytes.items pie.now) }
    ensures layout { IfOk result (λ bytes. bytes.items ≡ file_of pie.now) }
{
    let text = text_of(alloc, pie)?;
    let mut bytes = MAGIC.as_slice().to_vec(alloc)?;
    put_text(&mut bytes, text.as_slice())?;
    put_cells(&mut bytes, pie.cells.as_slice())?;
    Ok(bytes)
}

fn put_text(bytes: &mut Vec<u8>, text: &[u8]) -> Result<(), AllocError>
    requires { length text.now < 2 ^ 32 }
    ensures { OnOk result (bytes.new.items ≡ bytes.old.items ++ text_bytes text.now) }
{
    put_count(bytes, text.len())?;
    bytes.extend_from_slice(text)
}

fn put_cells(bytes: &mut Vec<u8>, cells: &[PieCell]) -> Result<(), AllocError>
    requires { length cells.now < 2 ^ 32 }
    ensures { OnOk result (bytes.new.items ≡ bytes.old.items ++ cells_bytes (map memory_cell cells.now)) }
{
    put_count(bytes, cells.len())?;
    for cell in cells {
        put_cell(bytes, cell)?;
    }
    Ok(())
}

fn put_count(bytes: &mut Vec<u8>, count: usize) -> Result<(), AllocError>
    requires { count < 2 ^ 32 }
    ensures { OnOk result (bytes.new.items ≡ bytes.old.items ++ to_be_bytes w32 count) }
{
    put_number32(bytes, count as u32)
}

fn put_cell(bytes: &mut Vec<u8>, cell: &PieCell) -> Result<(), AllocError>
    ensures { OnOk result (bytes.new.items ≡ bytes.old.items ++ cell_bytes (memory_cell cell.now)) }
{
    put_number16(bytes, cell.place.segment)?;
    put_number32(bytes, cell.place.offset)?;
    put_number16(bytes, tag_of(cell.value))?;
    put_number64(bytes, payload_of(cell.value))?;
    Ok(())
}

fn put_number16(bytes: &mut Vec<u8>, number: u16) -> Result<(), AllocError>
    ensures { OnOk result (bytes.new.items ≡ bytes.old.items ++ to_be_bytes w16 number) }
{
    bytes.extend_from_slice(&number.to_be_bytes())
}

fn put_number32(bytes: &mut Vec<u8>, number: u32) -> Result<(), AllocError>
    ensures { OnOk result (bytes.new.items ≡ bytes.old.items ++ to_be_bytes w32 number) }
{
    bytes.extend_from_slice(&number.to_be_bytes())
}

fn put_number64(bytes: &mut Vec<u8>, number: u64) -> Result<(), AllocError>
    ensures { OnOk result (bytes.new.items ≡ bytes.old.items ++ to_be_bytes w64 number) }
{
    bytes.extend_from_slice(&number.to_be_bytes())
}

fn tag_of(value: Value) -> u16
    ensures { result ≡ tag_number (datum value) }
{
    match value {
        Value::Number(_) => 0,
        Value::At(_) => 1,
    }
}

fn payload_of(value: Value) -> u64
    ensures { result ≡ payload_number (datum value) }
{
    match value {
        Value::Number(number) => number.value(),
        Value::At(place) => place_number(place.segment, place.offset),
    }
}
