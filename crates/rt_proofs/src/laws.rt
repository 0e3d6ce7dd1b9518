//! What proofs promise.
ghost use Rattle.rt_proofs.specs.Laws.{FaultExcludes, OneFault, ProofBounds, RefutationRefutes};

/// A proof of a bound bounds every whole assignment that meets the template. (This project's own.)
pub fn proof_bounds()
    ensures { ProofBounds }
{}

/// Where there is a refutation, no whole assignment meets the template. (This project's own.)
pub fn refutation_refutes()
    ensures { RefutationRefutes }
{}

/// A proof has no first fault. (This project's own.)
pub fn fault_excludes()
    ensures { FaultExcludes }
{}

/// A list of nodes has one first fault at most. (This project's own.)
pub fn one_fault()
    ensures { OneFault }
{}
