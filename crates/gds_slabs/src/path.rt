//! How a path ends.
/// How a path ends. (GDSII Release 6: PATHTYPE.)
#[derive(Clone, Copy, Drop)]
pub enum PathEnd {
    /// Flush with the first and the last point: type 0.
    Flush,
    /// Half the width beyond the first and the last point: type 2.
    Square,
}
