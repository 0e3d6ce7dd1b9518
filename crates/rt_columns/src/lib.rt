//! What stands over what at the columns of a drawing: which strips are seen from which, and which chains they form.
#![tactic(auto)]

mod chains;
mod gaps;
mod mask;
mod ranks;
mod rows;
mod shown;
mod slab;

pub use shown::column_names;
