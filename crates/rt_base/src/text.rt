//! Texts of printable bytes.
ghost use Rattle.std.specs.Prelude.{◌≡◌, ℕ, List as ListValue, MatchOption, IfOk, nat_eq, refl};
ghost use Rattle.std.specs.Ordering.{nat_cmp, as_partial_cmp};
ghost use Rattle.std.specs.Hash as fed;
ghost use Rattle.std.specs.Cmp.Lexicographic.{pointwise, slice_cmp};
ghost use Rattle.std.specs.Cmp.{partial_order_from_own_ties};
ghost use Rattle.std.specs.Cmp.Rules.{comparing, hashing};
ghost use Rattle.std.proofs.Common.{rules};
ghost use Rattle.rt_base.specs.Text.{IsText};

use crate::list::List;
use crate::memory::OutOfMemory;
use std::alloc::Global;
use std::cmp::Ordering;
use std::hash::{Hash, Hasher};
use std::marker::Model;

/// A text of printable bytes, 32 to 126. Contracts see its bytes; equality, order and hash go by them.
#[derive(Debug, Drop)]
pub struct Text {
    bytes: List<u8>,
}

impl Model for Text {
    ghost Value = { ListValue ℕ };

    ghost view = { λ t. t.bytes };

    ghost invariant = { λ t. IsText t.bytes };
}

impl Text {
    /// The bytes as a text, or None exactly where a byte lies outside 32 to 126.
    pub fn of(bytes: List<u8>) -> Option<Text>
        ensures { MatchOption result (¬ IsText bytes) (λ t. IsText bytes × (t ≡ bytes)) }
    {
        if bytes.as_slice().iter().all(|b| 32 <= *b && *b <= 126) {
            Some(Text { bytes })
        } else {
            None
        }
    }

    /// The bytes in order.
    pub fn as_slice(&self) -> &[u8]
        ensures value { result.now ≡ self.now }
        ensures printable { IsText self.now }
    {
        self.bytes.as_slice()
    }

    /// The same text once more. The only error is a want of memory.
    pub fn copy(&self, alloc: Global) -> Result<Text, OutOfMemory>
        ensures { IfOk result (λ t. t ≡ self.now) }
    {
        let bytes = Vec::from_slice(alloc, self.as_slice())?;
        Ok(Text {
            bytes: List::of(bytes),
        })
    }
}

impl PartialEq for Text {
    ghost eq = { pointwise nat_eq };

    ghost laws = { Prim.search (comparing, rules) };

    fn eq(&self, other: &Text) -> bool {
        self.as_slice() == other.as_slice()
    }
}

impl Eq for Text {
    ghost laws = { Prim.search (comparing, rules) };
}

impl PartialOrd for Text {
    ghost partial_cmp = { as_partial_cmp (slice_cmp nat_cmp) };

    ghost laws = { partial_order_from_own_ties (Prim.search (comparing, rules)) (Prim.search (comparing, rules)) };

    fn partial_cmp(&self, other: &Text) -> Option<Ordering> {
        Some(self.cmp(other))
    }
}

impl Ord for Text {
    ghost cmp = { slice_cmp nat_cmp };

    ghost total = { Prim.search (comparing, rules) };

    ghost matches_partial_cmp = { λ x y. refl };

    ghost matches_eq = { Prim.search (comparing, rules) };

    fn cmp(&self, other: &Text) -> Ordering {
        self.as_slice().cmp(other.as_slice())
    }
}

impl Hash for Text {
    ghost hash_input = { fed.slice fed.u8 };

    ghost respects_eq = { Prim.search (hashing, rules) };

    fn hash<H: Hasher>(&self, state: &mut H) {
        self.as_slice().hash(state);
    }
}
