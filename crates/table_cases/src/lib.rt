//! Cases of rule tables, of their forms and of sizes files, each over public calls. Tests alone: the crate has no code.
#![tactic(auto)]

#[cfg(test)]
mod forms;
#[cfg(test)]
mod literals;
#[cfg(test)]
mod sizes;
#[cfg(test)]
mod tables;
#[cfg(test)]
mod texts;
