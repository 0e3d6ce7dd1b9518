//! Families of strips of one mask, and drawings that carry them: a drawing that agrees with its source as `IsCarried` says keeps the
//! rules of width and space, its pieces, its hosts and its distances. It knows no table, no row and no layout.
#![tactic(auto)]

mod laws;

pub use laws::{
    an_l_is_carried, carried_hosts_cover, carried_keeps_notch, carried_keeps_pieces,
    carried_keeps_pieces_apart, carried_keeps_space, carried_keeps_width, clear_stays_clear,
    covered_has_hosts, list_keeps_rules, rows_carry, scaling_carries, untouched_is_carried,
    whole_runs_are_a_family,
};
