use crate::place::Place;
use goldi_field::Felt;

/// A number, or a place that is still to be relocated.
#[derive(Clone, Copy, Debug, PartialEq, Eq)]
pub enum Value {
    Number(Felt),
    At(Place),
}
