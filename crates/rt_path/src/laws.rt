//! The laws of this crate, each a function without a body whose contract is the law.
ghost use Rattle.rt_path.specs.Longest.{ProofBoundsRows, RefutationExcludes};

/// Law: no values meet rows that are refuted.
pub fn refuted_rows_have_no_values()
    ensures { RefutationExcludes }
{}

/// Law: values that meet rows are at least what a proof of the rows bounds.
pub fn bounded_rows_are_above()
    ensures { ProofBoundsRows }
{}
