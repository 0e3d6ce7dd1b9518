//! The ledger of pivots: a count that is lent.
ghost use Rattle.std.specs.Prelude.{◌≡◌, ℕ};
ghost use Rattle.rt_base.specs.Ledger.{one_more};

use std::marker::Model;

/// A ledger of pivots. Its count stands still at its last value, 2^64 - 1. (This project's own.)
#[derive(Drop)]
pub struct Pivots {
    count: u64,
}

impl Model for Pivots {
    ghost Value = { ℕ };

    ghost view = { λ ledger. ledger.count };
}

impl Pivots {
    /// A ledger in which nothing is counted yet.
    pub fn new() -> Pivots
        ensures { result ≡ 0 }
    {
        Pivots { count: 0 }
    }

    /// How many pivots are counted: each one once, up to 2^64 - 1.
    pub fn count(&self) -> u64
        ensures { result ≡ self.now }
    {
        self.count
    }

    /// Counts one pivot.
    pub fn raise(&mut self)
        ensures { self.new ≡ one_more self.old }
    {
        self.count = self.count.saturating_add(1);
    }
}
