//! Laws of flat layouts.
ghost use Rattle.std.specs.Prelude.{◌≡◌, List, Contains};
ghost use Rattle.gds_stream.specs.declared.library.Structure.{Structure as Part};
ghost use Rattle.gds_flat.specs.Laws.{OneFlat};
ghost use Rattle.gds_flat.specs.Reach.{Name, Order, Missing, IsCycle, Acyclic};

/// Law: a walk reaches structures in one order.
pub fn one_order()
    ensures { (library : List Part) (seen names o p : List Name) → Order library seen names o → Order library seen names p → o ≡ p }
{}

/// Law: a walk that comes to a name that no structure has has no order.
pub fn no_order_and_missing()
    ensures { (library : List Part) (seen names o : List Name) (n : Name) → Order library seen names o → Missing library seen names n → ⊥ }
{}

/// Law: a walk comes to one such name at most.
pub fn one_missing()
    ensures { (library : List Part) (seen names : List Name) (m n : Name) → Missing library seen names m → Missing library seen names n → m ≡ n }
{}

/// Law: what can be put behind all that it places doesn't go round in a circle.
pub fn no_circle()
    ensures { (library : List Part) (order names : List Name) → Acyclic library order → (c : IsCycle library names) → Contains order c.start → ⊥ }
{}

/// Law: a structure of a library is flattened to one layout: its labels, its number of masks, and the rectangles of each mask.
pub fn one_flat()
    ensures { OneFlat }
{}
