//! The assembly text of the Cairo machine (docs/ASSEMBLY.md): the code of a text, why a text has none, and the listing of
//! words.
#![tactic(auto)]

mod assembler;
mod code;
mod instructions;
mod labels;
mod laws;
mod lines;
mod lister;
mod op1;
mod parsing;
mod plain;
mod recognition;
mod refusal;
mod resolving;
mod syntax;
mod tokens;
mod values;
mod writing;

pub use assembler::assemble;
pub use code::Code;
pub use laws::{
    assembles_without_cause, code_is_small, kept_or_refused, listing_assembles, listing_exists,
    one_assembly, one_first_cause, one_line, one_listing, one_statement, one_token_list,
};
pub use lister::listing;
pub use refusal::AsmRefusal;
