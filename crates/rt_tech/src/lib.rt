//! Rule tables and sizes files as values: masks with their rules, the grid, the two sides of a retargeting, the sizes of
//! devices, and how a rule is broken.
#![tactic(auto)]

mod laws;
pub mod limits;
mod numbers;
mod pairs;
mod rules;
mod sizes;
mod table;

pub use laws::{
    cuts_are_enclosed, cuts_are_kept_from_gate, kinds_are_parted, lowers_are_kept_apart,
    none_is_of_two_kinds,
};
pub use numbers::{space_of, width_of};
pub use pairs::{is_ignored, same_pair};
pub use rules::{RuleError, RuleName};
pub use sizes::{Mirror, Sizes, Wish};
pub use table::{Apart, Enclose, Gates, Kind, Mask, Near, Role, TableCause, Tech, Which};
