//! The text of a certificate: what a claim is, how it is written and read, and what it begins with.
#![tactic(auto)]

mod beginning;
mod building;
mod cert_error;
mod checking;
mod claim;
mod laws;
mod reading;
mod stage;
mod writing;

pub use beginning::claims_done;
pub use cert_error::CertError;
pub use checking::first_bad_line;
pub use claim::Claim;
pub use laws::{one_claim_of_a_text, text_of_a_claim_is_not_bad, written_claim_is_read};
pub use reading::read_cert;
pub use writing::write_cert;
