//! A registry of facts: each fact once, in the order of registration.
#![tactic(auto)]

mod laws;
mod registry;

pub use laws::registered_facts;
pub use registry::Registry;
