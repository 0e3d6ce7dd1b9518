//! The picture of a flat cell, as SVG: the rectangles of each mask, the labels, a scale bar, and a legend at the right.
ghost use Rattle.std.specs.Prelude.{◌<◌};

use crate::bounds::bounds_of;
use crate::escapes::push_escaped;
use crate::frame::{Frame, frame_around};
use crate::layers::Layer;
use crate::legend::{Legend, push_legend};
use crate::scale::round_length;
use rt_base::{Rect, Text};
use rt_layout::{Label, Layout};
use std::alloc::{AllocError, Global};

// How large the longer side of a picture is shown where nobody says otherwise, in pixels.
const SHOWN: u64 = 480;

/// The picture of a layout, whose masks with rectangles are the layers, under the cell's name.
pub fn picture_of(
    alloc: Global,
    name: &Text,
    layout: &Layout,
    layers: &[Layer<'_>],
) -> Result<String, AllocError> {
    let mut svg = String::new(alloc);
    push_picture(&mut svg, name, layout, layers)?;
    Ok(svg)
}

// Appends the picture.
fn push_picture(
    svg: &mut String,
    name: &Text,
    layout: &Layout,
    layers: &[Layer<'_>],
) -> Result<(), AllocError> {
    let frame = frame_around(bounds_of(layout));
    let legend = Legend {
        name,
        layers,
        left: frame.right().saturating_add(frame.letter),
        letter: frame.letter,
    };
    push_head(svg, &frame, &legend)?;
    push_layers(svg, &frame, layers)?;
    push_labels(svg, &frame, layout.labels.as_slice())?;
    if frame.width() > 0 {
        push_scale(svg, &frame)?;
    }
    push_legend(svg, &legend, frame.line())?;
    svg.push_str("</svg>\n")
}

// Appends what a picture begins with: its size, its title and a white ground.
fn push_head(svg: &mut String, frame: &Frame, legend: &Legend<'_>) -> Result<(), AllocError> {
    let width = legend.right().saturating_add(frame.letter);
    let below = frame
        .bottom()
        .saturating_add(frame.letter.saturating_mul(2));
    let height = below.max(legend.bottom()).saturating_add(frame.letter);
    let longer = width.max(height).max(1);
    let across = shown(width, longer);
    let upwards = shown(height, longer);
    let letter = frame.letter;
    writeln!(
        svg,
        "<svg xmlns=\"http://www.w3.org/2000/svg\" width=\"{across}\" height=\"{upwards}\" viewBox=\"0 0 {width} {height}\" font-family=\"monospace\" font-size=\"{letter}\">"
    )?;
    svg.push_str("<title>")?;
    push_escaped(svg, legend.name)?;
    svg.push_str("</title>\n")?;
    writeln!(
        svg,
        "<rect width=\"{width}\" height=\"{height}\" fill=\"#ffffff\"/>"
    )
}

// How many pixels a side is shown with, where the longer one is so long.
fn shown(side: u64, longer: u64) -> u64
    requires { 0 < longer }
{
    (side.saturating_mul(SHOWN) / longer).max(1)
}

// Appends the rectangles of all layers, each layer over those before it.
fn push_layers(svg: &mut String, frame: &Frame, layers: &[Layer<'_>]) -> Result<(), AllocError> {
    let line = frame.line();
    for layer in layers {
        let colour = layer.colour;
        writeln!(
            svg,
            "<g fill=\"{colour}\" fill-opacity=\"0.5\" stroke=\"{colour}\" stroke-width=\"{line}\">"
        )?;
        push_rectangles(svg, frame, layer.rectangles)?;
        svg.push_str("</g>\n")?;
    }
    Ok(())
}

// Appends the rectangles of a layer.
fn push_rectangles(svg: &mut String, frame: &Frame, rectangles: &[Rect]) -> Result<(), AllocError> {
    for rectangle in rectangles {
        push_rectangle(svg, frame, rectangle)?;
    }
    Ok(())
}

// Appends a rectangle.
fn push_rectangle(svg: &mut String, frame: &Frame, rectangle: &Rect) -> Result<(), AllocError> {
    let x = frame.across(rectangle.x1);
    let y = frame.down(rectangle.y2);
    let width = frame.length(rectangle.x2.abs_diff(rectangle.x1));
    let height = frame.length(rectangle.y2.abs_diff(rectangle.y1));
    writeln!(
        svg,
        "<rect x=\"{x}\" y=\"{y}\" width=\"{width}\" height=\"{height}\"/>"
    )
}

// Appends the labels, each of which begins at its point.
fn push_labels(svg: &mut String, frame: &Frame, labels: &[Label]) -> Result<(), AllocError> {
    for label in labels {
        push_label(svg, frame, label)?;
    }
    Ok(())
}

// Appends a label.
fn push_label(svg: &mut String, frame: &Frame, label: &Label) -> Result<(), AllocError> {
    let x = frame.across(label.at.0);
    let y = frame.down(label.at.1);
    let size = frame.small_letter();
    write!(svg, "<text x=\"{x}\" y=\"{y}\" font-size=\"{size}\">")?;
    push_escaped(svg, &label.text)?;
    svg.push_str("</text>\n")
}

// Appends the scale bar below the drawing's left side: a length of about a quarter of the drawing, and its number.
fn push_scale(svg: &mut String, frame: &Frame) -> Result<(), AllocError> {
    let length = round_length(frame.width() / 4);
    let left = frame.letter;
    let right = frame.length(length).saturating_add(left);
    let low = frame
        .bottom()
        .saturating_add(frame.letter.saturating_mul(2));
    let high = low.saturating_sub(frame.letter / 2);
    let line = frame.line();
    writeln!(
        svg,
        "<path d=\"M{left} {high}V{low}H{right}V{high}\" fill=\"none\" stroke=\"#000000\" stroke-width=\"{line}\"/>"
    )?;
    let beside = right.saturating_add(frame.letter / 2);
    writeln!(svg, "<text x=\"{beside}\" y=\"{low}\">{length}</text>")
}
