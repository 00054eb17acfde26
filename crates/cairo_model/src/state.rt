use crate::value::Value;
use goldi_field::Felt;

/// The registers of the machine over the field.
#[derive(Clone, Copy, Debug, PartialEq, Eq)]
pub struct FieldState {
    pub pc: Felt,
    pub ap: Felt,
    pub fp: Felt,
}

/// The registers of the machine over values.
#[derive(Clone, Copy, Debug, PartialEq, Eq)]
pub struct State {
    pub pc: Value,
    pub ap: Value,
    pub fp: Value,
}
