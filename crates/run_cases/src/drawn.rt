//! What a stream draws, in the words of a case.

use gds_stream::{Element, Structure, read_stream};
use rt_base::Point;
use std::alloc::{AllocError, Global};

/// Appends what a file draws, or that it is no stream or isn't there.
pub fn put_drawing(alloc: Global, to: &mut String, file: Option<&[u8]>) -> Result<(), AllocError> {
    let Some(bytes) = file else {
        return to.push_str(" nothing");
    };
    match read_stream(alloc, bytes) {
        Ok(library) => put_structures(alloc, to, library.structures.as_slice()),
        Err(_) => to.push_str(" no stream"),
    }
}

// Appends what structures draw.
fn put_structures(
    alloc: Global,
    to: &mut String,
    structures: &[Structure],
) -> Result<(), AllocError> {
    for structure in structures {
        put_structure(alloc, to, structure)?;
    }
    Ok(())
}

// Appends what a structure draws: polygons, each by its layer and its corners, and texts.
fn put_structure(alloc: Global, to: &mut String, structure: &Structure) -> Result<(), AllocError> {
    put_bytes(to, structure.name.as_slice())?;
    for element in structure.elements.as_slice() {
        match element {
            Element::Boundary { layer, points, .. } => {
                put_corners(alloc, to, *layer, points.as_slice())?
            }
            Element::Label { text, .. } => put_bytes(to, text.as_slice())?,
            _ => to.push_str(" another element")?,
        }
    }
    Ok(())
}

// Appends a name or a text.
fn put_bytes(to: &mut String, bytes: &[u8]) -> Result<(), AllocError> {
    to.push_str(" ")?;
    to.push_str(str::from_utf8(bytes).unwrap_or("(no text)"))
}

// Appends a layer and corners.
fn put_corners(
    alloc: Global,
    to: &mut String,
    layer: i16,
    points: &[Point],
) -> Result<(), AllocError> {
    let layer = format!(in alloc; " [{layer}:")?;
    to.push_str(layer.as_str())?;
    for point in points {
        let corner = format!(in alloc; " {} {}", point.x, point.y)?;
        to.push_str(corner.as_str())?;
    }
    to.push_str("]")
}
