//! Rows: linear inequalities over the positions of strips, the names that the templates give them, and proofs made of rows.
#![tactic(auto)]

mod meeting;
mod name;
mod order;
mod positions;
mod proof;
mod row;

pub use meeting::meets;
pub use name::Name;
pub use order::put_in_order;
pub use positions::{EXTENT_LIMIT, Positions};
pub use proof::{Node, Of, Proof, Share};
pub use row::{Row, Term, Var};
