//! The check of a layout's view against the rules of a table: widths, sizes and spaces of masks, enclosures and distances; and the searches for what
//! breaks a size, an enclosure or a distance.
#![tactic(auto)]

mod answer;
mod apart;
mod axes;
mod beside;
mod clash;
mod corners;
mod counting;
mod enclosures;
mod gaps;
mod kinds;
mod masks;
mod near;
mod pairs;
mod pieces;
mod reach;
mod rows;
mod rules;
mod sizes;
mod space;
mod turned;
mod width;

pub use apart::distance_breach;
pub use counting::Counted;
pub use enclosures::enclosure_breach;
pub use rows::Witness;
pub use rules::check_rules;
pub use sizes::size_breach;
