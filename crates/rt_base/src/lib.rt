//! Values that every layer shares: rectangles, cells, points and turns, lists and texts, and the ledger of pivots.
#![tactic(auto)]

mod ledger;
mod list;
mod memory;
mod plane;
mod text;
mod turns;

pub use ledger::Pivots;
pub use list::List;
pub use memory::OutOfMemory;
pub use plane::{Axis, Cell, Orient, Point, Rect, gap_x, gap_y};
pub use text::Text;
pub use turns::turn;
