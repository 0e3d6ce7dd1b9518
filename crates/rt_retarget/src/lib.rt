//! The whole job: from the bytes of the four files to the bytes of the moved cell.
#![tactic(auto)]

mod answer;
mod inputs;
mod job;
mod laws;
mod output;
mod refusals;
mod source;

pub use answer::{Fault, Outcome, What};
pub use job::retarget;
pub use laws::{
    files_have_one_job, files_have_one_outcome, refused_layouts_are_not_moved,
    refused_sources_have_no_layout, refused_tables_and_sizes_are_not_read,
};
