//! The structures of a library by their names.
ghost use Rattle.std.specs.Prelude.{◌≡◌, ℕ, List as ListValue, bytes_eq};
ghost use Rattle.indexmap.specs.IndexMap.{get_by};
ghost use Rattle.gds_flat.specs.Reach.{place_named};

use gds_stream::Structure;
use indexmap::IndexMap;
use rt_base::Text;

// The structures of a library by their names, each name with the place of the first structure that has it, and the name of
// the structure that is flattened.
#[derive(Drop)]
pub(crate) struct Names<'a> {
    pub places: IndexMap<&'a [u8], usize>,
    pub structures: &'a [Structure],
    pub top: &'a Text,
    ghost first: { (name : ListValue ℕ) → get_by (λ k. bytes_eq name k.now) places ≡ place_named name structures.now },
}
