//! Cases of flattening: what is drawn of a structure, and why one is refused. Tests alone, over the calls of `gds_flat`.
#![tactic(auto)]

#[cfg(test)]
mod drawable;
#[cfg(test)]
mod drawing;
#[cfg(test)]
mod parts;
#[cfg(test)]
mod refusing;
#[cfg(test)]
mod said;
#[cfg(test)]
mod shelf;
