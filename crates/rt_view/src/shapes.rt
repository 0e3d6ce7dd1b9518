//! The view of a layout, and the shapes that a sound source doesn't have.
ghost use Rattle.std.specs.Prelude.{◌≡◌};
ghost use Rattle.rt_view.specs.declared.shapes.NetError.TheVariants.{OutOfMemory as NoMemory};

use rt_base::{List, OutOfMemory, Rect};
use rt_layout::Label;
use rt_strips::Strips;
use thiserror::Error;

/// A channel: a piece of cells that both the gate and the active cover, a rectangle. (This project's own.)
#[derive(Clone, Copy, Drop)]
pub struct Channel {
    /// The number of its strip.
    pub strip: u32,
    /// Whether the active goes on at its left and right; else at its bottom and top.
    pub upright: bool,
    /// The number of its active's kind.
    pub kind: u32,
}

/// A layout by its strips. (This project's own.)
#[derive(Drop)]
pub struct View {
    /// Its strips, channels included.
    pub strips: Strips,
    /// Its channels, in order of their strips.
    pub channels: List<Channel>,
    /// For each strip of a cut the number of the lower mask that it lies in; 0 for every other strip.
    pub lowers: List<u32>,
    /// For each strip of the active the number of its kind; 0 for every other strip.
    pub kinds: List<u32>,
    /// Its labels, in the stream's order.
    pub labels: List<Label>,
}

/// A shape that a sound source doesn't have, in the order in which they are tested. (This project's own.)
#[derive(Clone, Copy, Debug, PartialEq, Eq, Drop)]
pub enum Shape {
    /// A cut that is no rectangle.
    CutShape,
    /// A cut that its upper mask doesn't cover.
    CutUpper,
    /// A cut that doesn't lie in exactly one of its lower masks.
    CutLower,
    /// A background that is no rectangle.
    Background,
    /// A channel that is no rectangle, or that is neither upright nor lying.
    BentChannel,
    /// An active of no kind.
    NoKind,
    /// An active with a channel, of a kind that has none.
    TapChannel,
    /// A label that no rectangle of its mask touches.
    StrayLabel,
}

/// Why a layout has no view.
#[derive(Debug, Drop, Error)]
pub enum NetError {
    /// It has a shape that a sound source doesn't have.
    #[error("{shape:?}")]
    SourceShape {
        /// The first such shape.
        shape: Shape,
        /// The bounding rectangle of a piece that has it; of a label the square whose lower left corner is its point.
        rect: Rect,
    },
    /// There was no memory for it.
    #[error("out of memory")]
    OutOfMemory,
}

impl From<OutOfMemory> for NetError {
    ghost from_gives = { λ _ error. error ≡ NoMemory };

    fn from(_error: OutOfMemory) -> NetError {
        NetError::OutOfMemory
    }
}
