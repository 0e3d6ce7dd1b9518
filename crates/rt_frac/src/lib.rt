//! Fractions of whole numbers of 128 bits, in lowest terms.
#![tactic(auto)]

mod divisor;
mod frac;
mod laws;
mod sizes;

pub use divisor::common_divisor;
pub use frac::Frac;
pub use laws::one_fraction;
