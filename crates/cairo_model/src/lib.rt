//! Types and definitions that the crates of the machine share.
#![tactic(auto)]

mod cells;
mod certificate;
mod checked;
mod end;
mod fact;
mod fault;
mod felts;
mod kept;
mod laws;
mod layout;
pub mod limits;
mod offsets;
mod outputs;
mod pie;
mod pie_copy;
mod place;
mod read_refusal;
mod refusal;
mod replay_refusal;
pub mod segments;
mod shape;
mod span;
mod state;
mod texts;
mod value;
mod value_sums;

pub use cells::Cells;
pub use certificate::{Cert, Kind, TaskMark};
pub use checked::Checked;
pub use end::End;
pub use fact::Fact;
pub use fault::StepFault;
pub use felts::{felt_below, felt_of};
pub use kept::{cells_are_felts, is_certificate};
pub use laws::{
    fact_forms_agree, fault_forms_agree, field_faults, forms_agree, looks_up, machine_constants,
    one_acceptance, pie_states_stay, rules_agree, runs_by_parts, runs_by_states, states_stay,
    values_stay,
};
pub use layout::Layout;
pub use offsets::{offset_felt, size_felt};
pub use outputs::Outputs;
pub use pie::{Pie, PieCell};
pub use place::Place;
pub use read_refusal::ReadRefusal;
pub use refusal::Refusal;
pub use replay_refusal::ReplayRefusal;
pub use shape::Shape;
pub use span::Span;
pub use state::{FieldState, State};
pub use texts::{
    number_of_fault, put_decimal, put_fact, put_number, put_numbers, put_pair, put_refusal,
    put_replay_refusal, put_value,
};
pub use value::Value;
pub use value_sums::{add, is_zero, mul, sub};
