//! Look-ups by name, and what an element places.
ghost use Rattle.std.specs.Prelude.{◌≡◌, None, Some, IfOk, MatchOption};
ghost use Rattle.gds_flat.specs.Reach.{place_named, target as target_of};

use crate::names::Names;
use gds_stream::{Element, Structure};
use indexmap::IndexMap;
use rt_base::{OutOfMemory, Text};
use std::alloc::Global;

// The structures by their names.
pub(crate) fn names<'a>(
    alloc: Global,
    structures: &'a [Structure],
    top: &'a Text,
) -> Result<Names<'a>, OutOfMemory>
    ensures structures { IfOk result (λ n. n.structures.now ≡ structures.now) }
    ensures top { IfOk result (λ n. n.top.now ≡ top.now) }
{
    let mut places = IndexMap::new(alloc);
    for (i, structure) in structures.iter().enumerate() {
        let name = structure.name.as_slice();
        if places.contains_key(name) {
            continue;
        }
        places.insert(name, i)?;
    }
    Ok(Names {
        places,
        structures,
        top,
    })
}

// The place of the structure by this name.
pub(crate) fn find(names: &Names, name: &Text) -> Option<usize>
    ensures { result ≡ place_named name.now names.now.structures.now }
{
    names.places.get(name.as_slice()).copied()
}

// The name that an element places, if it is a reference.
pub(crate) fn target(element: &Element) -> Option<&Text>
    ensures { MatchOption result (target_of element.now ≡ None) (λ n. target_of element.now ≡ Some n.now) }
{
    match element {
        Element::Sref { name, .. } | Element::Aref { name, .. } => Some(name),
        _ => None,
    }
}
