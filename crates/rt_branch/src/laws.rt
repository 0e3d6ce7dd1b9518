//! What holds of searches.
ghost use Rattle.rt_branch.specs.Laws.{BestIsAttained, BestIsLeast, BestIsTheLeast, BranchesAreAddable, ChangesAreUndone, OneEnding, OneMove, RowsAreBranches, SearchesAreOne, SearchesClose, TrailsJoin};

/// Law: with an open node one thing is done: a dual pivot, a ray closes it, or at an optimum it's whole, pruned or branched. (After the method of
/// branch and bound.)
pub fn one_move()
    ensures { OneMove }
{}

/// Law: of two searches from one place, one goes on from where the other is. (After the method of branch and bound.)
pub fn searches_are_one()
    ensures { SearchesAreOne }
{}

/// Law: from one place and within one limit of pivots a search has one ending at most: the best positions, that there are none, Overflow or Budget.
/// So each comes exactly where the rows ask for it. (This project's own.)
pub fn one_ending()
    ensures { OneEnding }
{}

/// Law: the rows of the two nodes of a branch are always taken by a tableau. (This project's own.)
pub fn rows_are_branches()
    ensures { RowsAreBranches }
{}

/// Law: where a node's entries are at most 10^18 in magnitude, so are the numbers of its branch's rows, and their variable has a column: a tableau may be
/// asked to add them. (This project's own.)
pub fn branches_are_addable()
    ensures { BranchesAreAddable }
{}

/// Law: the latest change of a trail can be undone: the column that was basic is made basic again in its row, at an entry below 0, or the last row is
/// dropped, in which its own column is basic. The table is then the one before, so no entry passes the limit. (This project's own.)
pub fn changes_are_undone()
    ensures { ChangesAreUndone }
{}

/// Law: a trail to a state, and one from there on, are one trail. (This project's own.)
pub fn trails_join()
    ensures { TrailsJoin }
{}

/// Law: where no node is open any more, no whole positions that meet the rows of the root have a lesser value of the goal than the best, and without a best
/// no whole positions meet them. (After the method of branch and bound.)
pub fn best_is_least()
    ensures { BestIsLeast }
{}

/// Law: the best positions of a search meet the rows that it began with: they are a whole point of the root's rows, at which the goal is worth the best
/// extent. (After the method of branch and bound.)
pub fn best_is_attained()
    ensures { BestIsAttained }
{}

/// Law: where no node is open any more, the best positions meet the rows that the search began with, and no whole positions that meet them have a lesser
/// extent; without a best no whole positions meet them. Positions are whole numbers, none below 0, one for each variable. (After the method of branch and
/// bound.)
pub fn best_is_the_least()
    ensures { BestIsTheLeast }
{}

/// Law: where no node is open any more, the best positions close the root: by a tree of pivots and branches, each of whose ends is a ray, or an optimum
/// with nothing better. (After the method of branch and bound.)
pub fn searches_close()
    ensures { SearchesClose }
{}
