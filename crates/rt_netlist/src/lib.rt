//! Nets of a layout: live spots, which are joined side by side and by cuts, the labels on them, and the numbers of the labels' nets. It has no
//! code. Masks of metal alone are live: the gate and the active, which channels cut, aren't told yet.
#![tactic(auto)]

mod laws;

pub use laws::{
    alike_layouts_extract_alike, labels_are_on_one_net, numbers_tell_nets, one_list_of_numbers,
};
