//! What holds of runs, and where they end.
ghost use Rattle.rt_simplex.specs.Laws.{AddedRowsKeepFeasible, EndsExclude, OneOutcome, OptimumIsLeast, PivotsKeepFeasible, RayHasNoPoint, RunsAreOne, StartIsFeasible};

/// Law: no solution of the rows of a ray has all columns at least 0. (After the dual simplex method of linear programming.)
pub fn ray_has_no_point()
    ensures { RayHasNoPoint }
{}

/// Law: where no column costs less than 0, none does after a dual pivot. (After the dual simplex method of linear programming.)
pub fn pivots_keep_feasible()
    ensures { PivotsKeepFeasible }
{}

/// Law: where no column costs less than 0 and each row has a basic column, none does with a row added: its own column costs nothing. (After the
/// simplex method of linear programming.)
pub fn added_rows_keep_feasible()
    ensures { AddedRowsKeepFeasible }
{}

/// Law: where no column costs less than 0 and the point of the basis meets the rows, the goal is least there among all points that meet them.
/// (After the duality of linear programming.)
pub fn optimum_is_least()
    ensures { OptimumIsLeast }
{}

/// Law: where rows begin, no column costs less than 0. (This project's own.)
pub fn start_is_feasible()
    ensures { StartIsFeasible }
{}

/// Law: the rows of an optimum aren't those of a ray. (After the duality of linear programming.)
pub fn ends_exclude()
    ensures { EndsExclude }
{}

/// Law: of two runs from one start, one goes on from where the other is: a state has one dual pivot at most. (After the dual simplex method of linear
/// programming.)
pub fn runs_are_one()
    ensures { RunsAreOne }
{}

/// Law: of one start and one limit, if a run comes to an end or a stop, each other run that comes to one comes to the same one, with the same state
/// and the same count. So each of an optimum, a ray, Overflow and Budget comes exactly where the rows ask for it. (This project's own.)
pub fn one_outcome()
    ensures { OneOutcome }
{}
