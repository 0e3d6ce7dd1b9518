//! The lines of a certificate: how each is written, and which line a text is.
#![tactic(auto)]

mod guessing;
mod limits;
mod line;
mod numbers;
mod rows;
mod within;
mod words;
mod writing;

pub use guessing::read_line;
pub use limits::{DIVISOR_LIMIT, LAST_STRIP, PLACE_LIMIT, SHARES_LIMIT, TIMES_LIMIT};
pub use line::Line;
pub use writing::put_line;
