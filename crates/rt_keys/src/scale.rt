ghost use Rattle.rt_tech.specs.Tech.{IsGrid};

use rt_tech::Which;

/// How a table's lengths are written and kept.
#[derive(Drop)]
pub struct Scale {
    /// Which of the two tables it is.
    pub which: Which,
    /// How many database units one step is, 1 to 100.
    pub grid: i64,
    pub ghost grid_in_range: { IsGrid grid },
}
