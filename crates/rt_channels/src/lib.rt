//! Channels: where a strip of one mask runs through strips of another. Where they are carried as `AreCarriedChannels` says, their drawings are
//! the channels of the drawing, in the same order along their strips, and the rules of cross and reach are kept. It knows no table and no
//! row, and has no code.
#![tactic(auto)]

mod laws;

pub use laws::{
    carried_channels_are_drawn, carried_channels_keep_cross, carried_channels_keep_order,
    carried_channels_keep_reach, one_crossing_is_carried, scaling_keeps_channels,
};
