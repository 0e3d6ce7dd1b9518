//! Cases of records, of streams and of what polygons, paths and references become: tests alone, over public calls.
#![tactic(auto)]

#[cfg(test)]
mod records;
#[cfg(test)]
mod slabs;
#[cfg(test)]
mod stream;
