ghost use Rattle.std.specs.Prelude.{◌≡◌, [], Option, List as ListValue};
ghost use Rattle.toml.specs.Data.{Data};
ghost use Rattle.toml.specs.View.{view, items_view};
ghost use Rattle.rt_keys.specs.declared.stop.Fault.{Fault as FaultValue};
ghost use Rattle.rt_keys.specs.Document.{entries_of};
ghost use Rattle.rt_keys.specs.Faults.{Reads, each};

use crate::stop::{Stop, at_entry};
use rt_base::List;
use std::alloc::Global;
use toml::Value;

/// How an entry of a list is read, with the entries before it at hand.
pub trait Entry {
    /// What an entry gives.
    type Item: Drop;

    ghost fault: { Self → ListValue Self.Item → Data → Option FaultValue };

    ghost gives: { Self → Data → Self.Item };

    /// What an entry gives, or its first fault, seen from the entry.
    fn read(&self, alloc: Global, before: &[Self::Item], value: &Value) -> Result<Self::Item, Stop>
        ensures { Reads result (fault self.now before.now (view value.now)) (λ x. x ≡ gives self.now (view value.now)) };
}

/// What the entries of a list give, one after another, or the first fault, seen from the table around the list.
pub fn entries<E: Entry>(alloc: Global, rule: &E, values: &[Value]) -> Result<List<E::Item>, Stop>
    ensures { Reads result (each (E.fault rule.now) (E.gives rule.now) [] (items_view values.now)) (λ xs. xs ≡ entries_of (E.gives rule.now) (items_view values.now)) }
{
    let mut found = List::new(alloc);
    for value in values {
        let read = rule.read(alloc, found.as_slice(), value);
        let item = at_entry(alloc, found.as_slice().len(), read)?;
        if found.push(item).is_err() {
            return Err(Stop::OutOfMemory);
        }
    }
    Ok(found)
}
