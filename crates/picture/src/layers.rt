//! The masks that are drawn.

use crate::colours::colour_of;
use rt_base::{Rect, Text};
use rt_layout::Layout;
use rt_tech::Tech;
use std::alloc::{AllocError, Global};

/// A mask that is drawn.
#[derive(Clone, Copy, Drop)]
pub struct Layer<'a> {
    /// Its name in the table.
    pub name: &'a Text,
    /// Its colour.
    pub colour: &'static str,
    /// Its rectangles, one at least.
    pub rectangles: &'a [Rect],
}

/// The masks that have rectangles, in the table's order.
pub fn layers_of<'a>(
    alloc: Global,
    layout: &'a Layout,
    table: &'a Tech,
) -> Result<Vec<Layer<'a>>, AllocError> {
    let mut layers = Vec::new(alloc);
    let masks = table.masks.as_slice().iter();
    for (number, (mask, list)) in masks.zip(layout.masks.as_slice()).enumerate() {
        let rectangles = list.as_slice();
        if !rectangles.is_empty() {
            layers.push(Layer {
                name: &mask.name,
                colour: colour_of(number),
                rectangles,
            })?;
        }
    }
    Ok(layers)
}

/// How many rectangles the layers have.
pub fn rectangle_count(layers: &[Layer<'_>]) -> usize {
    let mut count: usize = 0;
    for layer in layers {
        count = count.saturating_add(layer.rectangles.len());
    }
    count
}
