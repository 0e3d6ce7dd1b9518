//! Cases of the desks and of the lines that are said on them: tests alone, over public calls.
#![tactic(auto)]

#[cfg(test)]
mod file_desk;
#[cfg(test)]
mod lines;
#[cfg(test)]
mod memory_desk;
