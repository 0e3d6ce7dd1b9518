//! The search for whole positions at which the goal is least: what is done with each node, which branches there are, that a search is determined, and
//! that what it finds is the least; and the program that searches.
#![tactic(auto)]

mod back;
mod found;
mod laws;
mod moves;
mod parts;
mod point;
mod search;

pub use laws::{
    best_is_attained, best_is_least, best_is_the_least, branches_are_addable, changes_are_undone,
    one_ending, one_move, rows_are_branches, searches_are_one, searches_close, trails_join,
};
pub use parts::Best;
pub use search::least_whole;
