ghost use Rattle.std.specs.Prelude.{◌≡◌, map, option_map};
ghost use Rattle.cairo_model.specs.Working.Answers.{Gives};
ghost use Rattle.desk_script.specs.Lines.{line_fields};
ghost use Rattle.desk_script.specs.Views.{line_view};
ghost use Rattle.desk_script.specs.Working.Reading.{bytes_in, hash_in, numbers_in, parts_left, read_ask, read_line, read_settle, read_status, read_submit};

use crate::fields::{SPACE, ask_fields, cut, one_field, two_fields};
use crate::kinds::ScriptKind;
use crate::limits::JOB_LIMIT;
use crate::line::Line;
use crate::numbers::{felt_in, short_below};
use crate::verb::{Verb, verb_of};
use builtin_hash::ProgramHash;
use cairo_model::{End, Fact, Outputs};
use goldi_field::Felt;
use hex::FromHexError;
use std::alloc::Global;

/// The line of this text, which has no line feed, or what is wrong with it first.
pub(crate) fn line_in(alloc: Global, text: &[u8], clients: u32) -> Result<Line, End<ScriptKind>>
    ensures { Gives line_view result (read_line clients (line_fields text.now)) }
{
    let (verb, fields) = cut(text, SPACE);
    match verb_of(verb) {
        Some(Verb::Submit) => submit_line(alloc, fields, clients),
        Some(Verb::Ask) => ask_line(alloc, fields, clients),
        Some(Verb::Status) => status_line(fields, clients),
        Some(Verb::Settle) => settle_line(fields, clients),
        None => Err(End::Refused(ScriptKind::Verb)),
    }
}

#[tactic(auto, unfolding(crate::specs::Working::Reading::read_submit))]
fn submit_line(alloc: Global, fields: Option<&[u8]>, clients: u32) -> Result<Line, End<ScriptKind>>
    ensures { Gives line_view result (read_submit clients (parts_left 32 fields.entry)) }
{
    let (client, digits) = two_fields(fields).ok_or(End::Refused(ScriptKind::Fields))?;
    let client = short_below(client, u64::from(clients)).ok_or(End::Refused(ScriptKind::Client))?;
    let bytes = bytes_of(alloc, digits)?;
    Ok(Line::Submit(client, bytes))
}

#[tactic(auto, unfolding(crate::specs::Working::Reading::read_ask))]
fn ask_line(alloc: Global, fields: Option<&[u8]>, clients: u32) -> Result<Line, End<ScriptKind>>
    ensures { Gives line_view result (read_ask clients (parts_left 32 fields.entry)) }
{
    let fields = ask_fields(fields).ok_or(End::Refused(ScriptKind::Fields))?;
    let client = short_below(fields.client, u64::from(clients)).ok_or(End::Refused(
        ScriptKind::Client,
    ))?;
    let program = hash_of(fields.hash).ok_or(End::Refused(ScriptKind::Hex))?;
    let outputs = Outputs::of(outputs_in(alloc, fields.outputs)?);
    Ok(Line::Ask(client, Fact { program, outputs }))
}

#[tactic(auto, unfolding(crate::specs::Working::Reading::read_status))]
fn status_line(fields: Option<&[u8]>, clients: u32) -> Result<Line, End<ScriptKind>>
    ensures { Gives line_view result (read_status clients (parts_left 32 fields.entry)) }
{
    let (client, number) = two_fields(fields).ok_or(End::Refused(ScriptKind::Fields))?;
    let client = short_below(client, u64::from(clients)).ok_or(End::Refused(ScriptKind::Client))?;
    let number = short_below(number, JOB_LIMIT).ok_or(End::Refused(ScriptKind::Number))?;
    Ok(Line::Status(client, number))
}

#[tactic(auto, unfolding(crate::specs::Working::Reading::read_settle))]
fn settle_line(fields: Option<&[u8]>, clients: u32) -> Result<Line, End<ScriptKind>>
    ensures { Gives line_view result (read_settle clients (parts_left 32 fields.entry)) }
{
    let client = one_field(fields).ok_or(End::Refused(ScriptKind::Fields))?;
    let client = short_below(client, u64::from(clients)).ok_or(End::Refused(ScriptKind::Client))?;
    Ok(Line::Settle(client))
}

// The hash of 64 hexadecimal digits.
fn hash_of(digits: &[u8]) -> Option<ProgramHash>
    ensures { option_map (λ hash. hash.words) result ≡ hash_in digits.now }
{
    ProgramHash::from_digits(digits)
}

// The bytes of hexadecimal digits.
fn bytes_of(alloc: Global, digits: &[u8]) -> Result<Vec<u8>, End<ScriptKind>>
    ensures { Gives (λ bytes. bytes.items) result (bytes_in digits.now) }
{
    match hex::decode(alloc, digits) {
        Ok(bytes) => Ok(bytes),
        Err(FromHexError::OutOfMemory) => Err(End::OutOfMemory),
        Err(_) => Err(End::Refused(ScriptKind::Hex)),
    }
}

// The field numbers that the fields left are, one after the other.
fn outputs_in(alloc: Global, fields: Option<&[u8]>) -> Result<Vec<Felt>, End<ScriptKind>>
    ensures { Gives (λ felts. map (λ f. f.number) felts.items) result (numbers_in (parts_left 32 fields.entry)) }
{
    let mut outputs = Vec::new(alloc);
    let mut left = fields;
    while let Some(fields) = left {
        let (field, more) = cut(fields, SPACE);
        let output = felt_in(field).ok_or(End::Refused(ScriptKind::Number))?;
        outputs.push(output)?;
        left = more;
    }
    Ok(outputs)
}
