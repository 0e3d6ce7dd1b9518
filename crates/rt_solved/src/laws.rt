//! What holds of tables that are solved for a basis.
ghost use Rattle.rt_solved.specs.Laws.{DenominatorsAreLeast, ExchangeSolves, OneTable};

/// Law: rows and a basis have one solved table of reduced lines at most, whichever way it was reached. (This project's own.)
pub fn one_table()
    ensures { OneTable }
{}

/// Law: the number of a reduced line at its basic column is the least positive number that makes the rational line whole. (This project's own.)
pub fn denominators_are_least()
    ensures { DenominatorsAreLeast }
{}

/// Law: the exchange of a column for a basic one, which is a pivot's formula, gives a table that is solved for the new basis. (After the
/// simplex method of linear programming.)
pub fn exchange_solves()
    ensures { ExchangeSolves }
{}
