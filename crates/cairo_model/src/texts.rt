//! How numbers, values, facts, faults and refusals are written. Each call appends to the text; where memory runs out, it may have
//! appended a beginning.

mod facts;
mod numbers;
mod refusals;

pub use facts::put_fact;
pub use numbers::{number_of_fault, put_decimal, put_number, put_numbers, put_pair, put_value};
pub use refusals::{put_refusal, put_replay_refusal};
