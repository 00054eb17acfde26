use cairo_model::Value;

/// Why a value was not put: the place has one already, or it lies outside its segment, which has this size (0 where there
/// is no such segment).
#[derive(Clone, Copy, Debug, PartialEq, Eq)]
pub enum PutFault {
    Taken(Value),
    Outside(u32),
}
