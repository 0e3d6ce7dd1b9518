//! Reading of rule tables, TOML documents, and the comparison of their forms.
#![tactic(auto)]

mod comparing;
mod context;
mod form_laws;
mod forms;
mod kinds;
mod laws;
mod masks;
mod rules;
mod tables;

pub use form_laws::tables_of_one_form_agree;
pub use forms::same_form;
pub use laws::{a_table_has_no_fault, a_table_read_is_valid, one_table_is_read};
pub use tables::read_tech;
