//! Groups of items that pairs join, and the numbers of groups in the order in which they appear.
#![tactic(auto)]

mod joining;
mod numbering;

pub use joining::groups;
pub use numbering::numbered;
