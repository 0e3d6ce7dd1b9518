//! How near strips are looked for.
ghost use Rattle.rt_tech.specs.Tech.{IsReach};

/// How near strips are that are looked for: with fewer columns and fewer rows between them than these. 0 asks for a common one.
#[derive(Clone, Copy, Drop)]
pub(crate) struct Reach {
    /// Columns.
    pub(crate) across: i64,
    /// Rows.
    pub(crate) upwards: i64,
    ghost across_fits: { IsReach across },
    ghost upwards_fits: { IsReach upwards },
}
