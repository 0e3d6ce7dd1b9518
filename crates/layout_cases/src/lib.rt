//! Cases of the layout half, from rectangles and texts to strips: tests alone, over public calls.
#![tactic(auto)]

#[cfg(test)]
mod base;
#[cfg(test)]
mod builders;
#[cfg(test)]
mod strips;
