//! What is to be moved.
use crate::shapes::View;
use rt_base::List;
use rt_strips::Climbs;
use rt_tech::{Tech, Wish};

/// What is to be moved: the view of the source, both tables, and what is wanted of its channels. (This project's own.)
#[derive(Drop)]
pub struct Job {
    /// The view of the source.
    pub view: View,
    /// Which of its strips are climbed from which.
    pub climbs: Climbs,
    /// The source's table, in source database units.
    pub source: Tech,
    /// The target's table, in target steps.
    pub target: Tech,
    /// The sizes wanted of each channel, in order of the channels, in target steps.
    pub wishes: List<Wish>,
    /// The strips that mirror each other, in order.
    pub pairs: List<(u32, u32)>,
}
