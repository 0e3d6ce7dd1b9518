ghost use Rattle.std.specs.Prelude.{◌≡◌, ℕ, List as ListValue, bytes_eq, Option, Some, IfOk};
ghost use Rattle.indexmap.specs.IndexMap.{get_by};
ghost use Rattle.toml.specs.View.{view, items_view};
ghost use Rattle.rt_keys.specs.Names.{name_of, named};

use indexmap::IndexMap;
use toml::Value;

/// The entries of a list by their names: each name with the number of the first entry that has it.
#[derive(Drop)]
pub struct Names<'a> {
    /// The numbers by the names.
    pub numbers: IndexMap<&'a str, u32>,
    /// The list.
    pub values: &'a [Value],
    ghost first: { (name : ListValue ℕ) → get_by (λ k. bytes_eq name k.now) numbers ≡ named name (items_view values.now) },
}
