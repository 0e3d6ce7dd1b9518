//! Elements on the masks of a table.
ghost use Rattle.std.specs.Prelude.{◌≡◌};
ghost use Rattle.gds_flat.specs.Elements.{pair_of as pair_in, mask_of as mask_in, mask_of_shapes as shapes_in, mask_of_notes as notes_in, is_passed_over as passes};

use gds_stream::Element;
use rt_tech::{Tech, is_ignored, same_pair};

// The layer and the number of an element, if it has them.
pub(crate) fn pair_of(element: &Element) -> Option<(i16, i16)>
    ensures { result ≡ pair_in element.now }
{
    match element {
        Element::Boundary {
            layer,
            datatype,
            ..
        } => Some((*layer, *datatype)),
        Element::Path {
            layer,
            datatype,
            ..
        } => Some((*layer, *datatype)),
        Element::Label {
            layer,
            texttype,
            ..
        } => Some((*layer, *texttype)),
        Element::BoxShape { layer, boxtype, .. } => Some((*layer, *boxtype)),
        Element::Sref { .. } | Element::Aref { .. } => None,
    }
}

// The first mask that has the element's pair, if one has.
pub(crate) fn mask_of(tech: &Tech, element: &Element) -> Option<usize>
    ensures { result ≡ mask_in tech.now element.now }
{
    match element {
        Element::Boundary {
            layer,
            datatype,
            ..
        } => mask_of_shapes(tech, layer, datatype),
        Element::Path {
            layer,
            datatype,
            ..
        } => mask_of_shapes(tech, layer, datatype),
        Element::Label {
            layer,
            texttype,
            ..
        } => mask_of_notes(tech, layer, texttype),
        Element::BoxShape { layer, boxtype, .. } => mask_of_shapes(tech, layer, boxtype),
        Element::Sref { .. } | Element::Aref { .. } => None,
    }
}

// The first mask whose shapes have the pair.
fn mask_of_shapes(tech: &Tech, layer: &i16, number: &i16) -> Option<usize>
    ensures { result ≡ shapes_in tech.now.masks (layer.now, number.now) }
{
    tech.masks.as_slice().iter().position(|mask| same_pair(
        (mask.layer, mask.datatype),
        (*layer, *number),
    ))
}

// The first mask whose labels have the pair.
fn mask_of_notes(tech: &Tech, layer: &i16, number: &i16) -> Option<usize>
    ensures { result ≡ notes_in tech.now.masks (layer.now, number.now) }
{
    tech.masks
        .as_slice()
        .iter()
        .position(|mask| match mask.note {
            Some(note) => same_pair(note, (*layer, *number)),
            None => false,
        })
}

// Whether the table passes over the pair, where no mask has it.
pub(crate) fn is_passed_over(tech: &Tech, pair: &(i16, i16)) -> bool
    ensures { result ≡ passes tech.now pair.now }
{
    tech.drop_unlisted || is_ignored(tech.ignored.as_slice(), *pair)
}
