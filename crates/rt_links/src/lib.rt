//! Nets of masks that conduct, joined by cuts: a drawing that carries the masks and keeps the cuts inside of their hosts has the nets of its
//! source. The gate and the active, which channels cut, aren't told yet. It knows no table, no row and no layout, and has no code.
#![tactic(auto)]

mod laws;

pub use laws::{
    net_numbers_are_carried, nets_are_carried, scaling_carries_wires, two_metals_are_carried,
};
