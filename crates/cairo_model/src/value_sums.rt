ghost use Rattle.std.specs.Prelude.{◌≡◌};
ghost use Rattle.std.specs.Option.{option_map};
ghost use Rattle.cairo_model.specs.Machine.Values.{Sum, Difference, Product, is_zero_datum, place_at};
ghost use Rattle.cairo_model.specs.Views.Machine.{datum};
ghost use Rattle.goldi_field.specs.Numbers.{sum_of};

use crate::felts::felt_of;
use crate::limits::OFFSET_LIMIT;
use crate::place::Place;
use crate::value::Value;
use goldi_field::Felt;

/// The sum, where it is defined.
pub fn add(a: Value, b: Value) -> Option<Value>
    ensures { option_map datum result ≡ Sum (datum a) (datum b) }
{
    match (a, b) {
        (Value::Number(a), Value::Number(b)) => Some(Value::Number(a.add(b))),
        (Value::Number(a), Value::At(p)) => moved(p, a),
        (Value::At(p), Value::Number(b)) => moved(p, b),
        (Value::At(_), Value::At(_)) => None,
    }
}

/// The difference, where it is defined.
pub fn sub(a: Value, b: Value) -> Option<Value>
    ensures { option_map datum result ≡ Difference (datum a) (datum b) }
{
    match (a, b) {
        (Value::Number(a), Value::Number(b)) => Some(Value::Number(a.sub(b))),
        (Value::Number(_), Value::At(_)) => None,
        (Value::At(p), Value::Number(b)) => moved(p, b.neg()),
        (Value::At(p), Value::At(q)) => distance(p, q),
    }
}

/// The product, where it is defined.
pub fn mul(a: Value, b: Value) -> Option<Value>
    ensures { option_map datum result ≡ Product (datum a) (datum b) }
{
    match (a, b) {
        (Value::Number(a), Value::Number(b)) => Some(Value::Number(a.mul(b))),
        _ => None,
    }
}

/// Whether the value is the number 0.
pub fn is_zero(a: Value) -> bool
    ensures { result ≡ is_zero_datum (datum a) }
{
    match a {
        Value::Number(a) => a.value() == 0,
        Value::At(_) => false,
    }
}

// The place so many cells on, where its offset stays small.
fn moved(place: Place, by: Felt) -> Option<Value>
    ensures { option_map datum result ≡ place_at place.segment (sum_of place.offset by.number) }
{
    let offset = (place.offset as u128 + by.value() as u128) % goldi_field::PRIME as u128;
    if offset < u128::from(OFFSET_LIMIT) {
        Some(Value::At(Place {
            segment: place.segment,
            offset: offset as u32,
        }))
    } else {
        None
    }
}

// How far the first place is from the second, in one segment.
fn distance(place: Place, from: Place) -> Option<Value>
    ensures { option_map datum result ≡ Difference (datum (Value.At place)) (datum (Value.At from)) }
{
    if place.segment == from.segment {
        Some(Value::Number(felt_of(place.offset).sub(felt_of(from.offset))))
    } else {
        None
    }
}
