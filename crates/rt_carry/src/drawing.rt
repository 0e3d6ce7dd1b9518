//! Positions that meet both templates as a cell of rectangles and texts.
ghost use Rattle.std.specs.Prelude.{◌≡◌, ◌<◌, ◌*ℤ◌, map, length, IfOk};
ghost use Rattle.rt_view.specs.Job.{strips_of, IsJob};
ghost use Rattle.rt_strips.specs.Placed.{placed};
ghost use Rattle.rt_tech.specs.Tech.{IsGrid};
ghost use Rattle.rt_rows.specs.Places.{places};
ghost use Rattle.rt_template.specs.Horizontal.{MeetsAcross};
ghost use Rattle.rt_template.specs.Vertical.{MeetsUpwards};
ghost use Rattle.rt_template.specs.Drawing.{drawn};
ghost use Rattle.rt_carry.specs.Shapes.{shape_of, IsInExtent, AreInExtent};
ghost use Rattle.rt_carry.specs.Texts.{AreNoted};
ghost use Rattle.rt_carry.specs.Drawings.{strip_drawn, HavePlaces, CanBeDrawn, IsDrawingOf};

use crate::labels::notes;
use gds_stream::{Flat, Shape};
use rt_base::{List, OutOfMemory, Text};
use rt_rows::Positions;
use rt_strips::Strip;
use rt_tech::Tech;
use rt_view::Job;
use std::alloc::Global;

/// The drawing as a cell to be written: a rectangle for each strip, in order, at its position times grid, on the target's
/// layers; and for each label a text, in order, at the lower left corner of the drawing of the first strip that it touches.
/// Positions are in target steps, and the cell is in database units of the target.
#[tactic(auto, using(crate::proofs::Drawings::can_be_drawn, crate::proofs::Touched::all_touch))]
pub fn draw(
    alloc: Global,
    job: &Job,
    at: &Positions,
    library: &Text,
    cell: &Text,
) -> Result<Flat, OutOfMemory>
    requires job { IsJob job.now }
    requires entries { HavePlaces (strips_of job.now) at.now }
    requires across { MeetsAcross job.now (places at.now) }
    requires upwards { MeetsUpwards job.now (places at.now) (places at.now) }
    requires labels { AreNoted job.now.target job.now.view.labels }
    ensures { IfOk result (λ flat. IsDrawingOf job.now (places at.now) library.now cell.now flat) }
{
    Ok(Flat {
        library: library.copy(alloc)?,
        name: cell.copy(alloc)?,
        units: job.target.units,
        shapes: shapes(alloc, &job.target, job.view.strips.list.as_slice(), at)?,
        texts: notes(
            alloc,
            &job.target,
            job.view.strips.list.as_slice(),
            at,
            job.view.labels.as_slice(),
        )?,
    })
}

// A rectangle for each strip, in order.
#[tactic(auto, using(crate::proofs::Drawings::one_shape_more, crate::proofs::Drawings::all_shapes))]
fn shapes(
    alloc: Global,
    target: &Tech,
    strips: &[Strip],
    at: &Positions,
) -> Result<List<Shape>, OutOfMemory>
    requires entries { HavePlaces (map placed strips.now) at.now }
    requires drawable { CanBeDrawn target.now (map placed strips.now) (places at.now) }
    ensures { IfOk result (λ list. list ≡ map (shape_of target.now) (drawn target.now.grid (places at.now) (map placed strips.now))) }
{
    let mut list = List::new(alloc);
    for i in 0..strips.len() {
        let rectangle = shape(target, strips, at, i);
        list.push(rectangle)?;
    }
    Ok(list)
}

// The rectangle of a strip.
fn shape(target: &Tech, strips: &[Strip], at: &Positions, i: usize) -> Shape
    requires strip { i < length strips.now }
    requires entries { HavePlaces (map placed strips.now) at.now }
    requires drawable { CanBeDrawn target.now (map placed strips.now) (places at.now) }
    requires extent { AreInExtent (places at.now) i }
    ensures { result ≡ shape_of target.now (strip_drawn target.now.grid (places at.now) (map placed strips.now) i) }
{
    let strip = strips[i];
    let mask = &target.masks.as_slice()[strip.mask as usize];
    Shape {
        layer: mask.layer,
        datatype: mask.datatype,
        x1: in_units(target, at.l.as_slice()[i]),
        y1: in_units(target, at.b.as_slice()[i]),
        x2: in_units(target, at.r.as_slice()[i]),
        y2: in_units(target, at.t.as_slice()[i]),
    }
}

// So many steps in database units.
pub(crate) fn in_units(tech: &Tech, steps: i64) -> i32
    requires grid { IsGrid tech.now.grid }
    requires extent { IsInExtent steps }
    ensures { result ≡ tech.now.grid *ℤ steps }
{
    (tech.grid * steps) as i32
}
