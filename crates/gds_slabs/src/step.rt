//! How a reference places what it names.
use rt_base::Orient;

/// How a reference places what it names: a turn about the origin, and then a shift. (GDSII Release 6: SREF and AREF.)
#[derive(Clone, Copy, Drop)]
pub struct Step {
    /// The turn.
    pub orient: Orient,
    /// The shift across.
    pub dx: i64,
    /// The shift upwards.
    pub dy: i64,
}
