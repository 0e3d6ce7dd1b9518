//! What a check answers of one rule.
ghost use Rattle.std.specs.Prelude.{◌≡◌, Option, Some, None, OnOk, IfErr};
ghost use Rattle.rt_drc.specs.InOrder.{IsBrokenBy};

use crate::rows::Witness;
use rt_tech::{RuleError, RuleName};

/// That a rule is kept where nothing was found, or else broken as the witness shows, with the number that it asks for.
pub(crate) fn answer(rule: RuleName, found: &Option<Witness>, needed: &i64) -> Result<(), RuleError>
    ensures kept { OnOk result (found.now ≡ None) }
    ensures broken { IfErr result (IsBrokenBy rule needed.now (λ witness. found.now ≡ Some witness)) }
{
    match found {
        Some(witness) => Err(RuleError::Broken {
            rule,
            p: witness.p,
            q: witness.q,
            found: witness.found,
            needed: *needed,
        }),
        None => Ok(()),
    }
}
