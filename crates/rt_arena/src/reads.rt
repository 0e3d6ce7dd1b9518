//! The ledger of reads: a count that is lent. Outside of this crate it can be made and asked, and not raised.
ghost use Rattle.std.specs.Prelude.{◌≡◌, ℕ};
ghost use Rattle.rt_base.specs.Ledger.{one_more};

use std::marker::Model;

/// A ledger of reads. `L` names whose ledger it is, so that code that is generic in `L` has no ledger
/// but the one that it was lent. Its count stands still at its last value, 2^64 - 1. For planes, not used yet.
/// (This project's own.)
#[derive(Drop)]
pub struct Reads<L> {
    by: L,
    count: u64,
}

impl<L> Model for Reads<L> {
    ghost Value = { ℕ };

    ghost view = { λ ledger. ledger.count };
}

impl<L> Reads<L> {
    /// A ledger in which nothing is counted yet.
    pub fn new(by: L) -> Reads<L>
        ensures { result ≡ 0 }
    {
        Reads { by, count: 0 }
    }

    /// How many reads are counted: each one once, up to 2^64 - 1.
    pub fn count(&self) -> u64
        ensures { result ≡ self.now }
    {
        self.count
    }

    // Counts one read: for the arena alone.
    pub(crate) fn raise(&mut self)
        ensures { self.new ≡ one_more self.old }
    {
        self.count = self.count.saturating_add(1);
    }
}
