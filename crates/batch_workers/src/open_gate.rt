use crate::gate::Gate;
use crate::point::Point;
use std::sync::Wait;

/// The gate that is always open.
#[derive(Clone, Copy, Debug)]
pub struct OpenGate;

impl Gate for OpenGate {
    fn reach<R: Wait + Sync>(&self, _rt: &R, _point: Point) {}
}
