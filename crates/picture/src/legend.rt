//! The legend of a picture: the cell's name, and below it each mask that is drawn, by its colour and its name.

use crate::escapes::push_escaped;
use crate::layers::Layer;
use rt_base::Text;
use std::alloc::AllocError;

// The most letters of a name for which a legend is made wide enough.
const WIDEST_NAME: u64 = 40;

/// The legend of a picture.
#[derive(Drop)]
pub struct Legend<'a> {
    /// The cell's name.
    pub name: &'a Text,
    /// The masks that are drawn.
    pub layers: &'a [Layer<'a>],
    /// The place of its left side.
    pub left: u64,
    /// The height of its letters.
    pub letter: u64,
}

impl<'a> Legend<'a> {
    /// The place of its right side.
    pub fn right(&self) -> u64 {
        let mut longest = letters_of(self.name);
        for layer in self.layers {
            longest = longest.max(letters_of(layer.name).saturating_add(2));
        }
        let width = longest.saturating_mul(self.letter) / 5;
        self.left.saturating_add(width.saturating_mul(3))
    }

    /// The place of its lower side.
    pub fn bottom(&self) -> u64 {
        let mut bottom = self.first_row();
        for _layer in self.layers {
            bottom = bottom.saturating_add(self.row_height());
        }
        bottom
    }

    // The place of the foot of its first row.
    fn first_row(&self) -> u64 {
        self.letter.saturating_mul(2)
    }

    // How far a row's foot is below that of the row before.
    fn row_height(&self) -> u64 {
        self.letter.saturating_mul(3) / 2
    }
}

// How many letters of a name the legend has room for.
fn letters_of(name: &Text) -> u64 {
    let letters = name.as_slice().len() as u64;
    letters.min(WIDEST_NAME)
}

/// Appends the legend, whose lines are so thick.
pub fn push_legend(svg: &mut String, legend: &Legend<'_>, line: u64) -> Result<(), AllocError> {
    let mut foot = legend.first_row();
    push_text(svg, legend.left, foot, legend.name)?;
    for layer in legend.layers {
        foot = foot.saturating_add(legend.row_height());
        push_row(svg, legend, foot, layer, line)?;
    }
    Ok(())
}

// Appends the row of a mask: a square of its colour and its name.
fn push_row(
    svg: &mut String,
    legend: &Legend<'_>,
    foot: u64,
    layer: &Layer<'_>,
    line: u64,
) -> Result<(), AllocError> {
    let x = legend.left;
    let side = legend.letter.saturating_mul(4) / 5;
    let y = foot.saturating_sub(side);
    let colour = layer.colour;
    writeln!(
        svg,
        "<rect x=\"{x}\" y=\"{y}\" width=\"{side}\" height=\"{side}\" fill=\"{colour}\" fill-opacity=\"0.5\" stroke=\"{colour}\" stroke-width=\"{line}\"/>"
    )?;
    let beside = x.saturating_add(side).saturating_add(legend.letter / 2);
    push_text(svg, beside, foot, layer.name)
}

// Appends a line of text that begins at the place.
fn push_text(svg: &mut String, x: u64, y: u64, text: &Text) -> Result<(), AllocError> {
    write!(svg, "<text x=\"{x}\" y=\"{y}\">")?;
    push_escaped(svg, text)?;
    svg.push_str("</text>\n")
}
