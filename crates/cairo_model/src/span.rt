ghost use Rattle.std.specs.Prelude.{◌≤◌};

use goldi_field::Felt;

/// A stretch of addresses, from its start to below its stop.
#[derive(Clone, Copy, Debug, PartialEq, Eq)]
pub struct Span {
    pub start: Felt,
    pub stop: Felt,
    pub ghost ordered: { start.number ≤ stop.number },
}
