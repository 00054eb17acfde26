//! The bytes of certificates.
#![tactic(auto)]

mod answer;
mod carry;
mod feeding;
mod fields;
mod front;
mod laws;
mod order;
mod partial;
mod parts;
mod reader;
mod reading;
mod refusal;
mod stage;
mod writing;

pub use laws::{
    certificate_has_no_cause, certificate_or_cause, one_certificate, one_first_cert_cause,
    reads_back,
};
pub use reader::CertReader;
pub use reading::{read_cert, read_pieces};
pub use refusal::CertRefusal;
pub use writing::write_cert;
