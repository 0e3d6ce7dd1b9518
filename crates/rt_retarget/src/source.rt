//! The source: its library, the flat layout of its cell, the layout's view, and the rules that it keeps.
ghost use Rattle.std.specs.Prelude.{◌≡◌, ◌≤◌, pos, length, IfOk, IfErr, OnOk};
ghost use Rattle.gds_flat.specs.Drawn.{AreDrawable};
ghost use Rattle.gds_flat.specs.Refused.{IsFlattened};
ghost use Rattle.gds_stream.specs.Contents.{Stream};
ghost use Rattle.rt_view.specs.View.{IsViewOf, IsView};
ghost use Rattle.rt_rules.specs.Rules.{BreaksNoRule};
ghost use Rattle.rt_strips.specs.Channels.{IsStripsOf};
ghost use Rattle.rt_shapes.specs.Touching.{ArePlain};
ghost use Rattle.rt_tech.specs.Tech.{mask_count};
ghost use Rattle.rt_drc.specs.Rows.{cells_of};
ghost use Rattle.rt_retarget.specs.Files.{AreBuilt};
ghost use Rattle.rt_retarget.specs.Jobs.{AreMatched, IsUsable, IsReadSource, IsSoundView, IsCheckedCell, IsFaultOfRead, IsFaultOfParsed, IsFaultOfLaid, IsFaultOfView};

use crate::answer::{Fault, What};
use crate::inputs::{Inputs, are_built, check_strays};
use crate::refusals::flat_refusal;
use gds_flat::flatten;
use gds_stream::{Library, StreamError, read_stream};
use rt_drc::check_rules;
use rt_layout::Layout;
use rt_nets::view_of;
use rt_strips::{StripError, Strips, strips_of};
use rt_tech::{RuleError, Tech};
use rt_view::{NetError, View};
use std::alloc::Global;

/// The most strips of a cell that is moved. (This project's own.)
pub const STRIP_LIMIT: u32 = 120;

/// What the source holds.
#[derive(Drop)]
pub struct Source {
    /// Its library.
    pub library: Library,
    /// The view of the library's cell, in source database units.
    pub view: View,
}

/// What the source holds, where the files ask for what is built, its cell is sound by the source's table, and no
/// sizes are asked for devices; or the first of these that fails.
pub fn read_source(alloc: Global, bytes: &[u8], inputs: &Inputs) -> Result<Source, Fault>
    requires { AreMatched inputs.now.tables.source inputs.now.tables.target }
    ensures read { IfOk result (λ source. IsReadSource bytes.now inputs.now source.library source.view) }
    ensures refused { IfErr result (IsFaultOfRead bytes.now inputs.now) }
{
    if !are_built(&inputs.tables.source, &inputs.asked) {
        return Err(Fault::NotBuilt);
    }
    let library = read_library(alloc, bytes, inputs)?;
    let view = cell_view(alloc, &library, inputs)?;
    Ok(Source { library, view })
}

// The library that the source holds, or where and why it is no stream.
fn read_library(alloc: Global, source: &[u8], inputs: &Inputs) -> Result<Library, Fault>
    requires { AreBuilt inputs.now.tables.source inputs.now.asked }
    ensures stream { IfOk result (Stream source.now) }
    ensures refused { IfErr result (IsFaultOfRead source.now inputs.now) }
{
    match read_stream(alloc, source) {
        Ok(library) => Ok(library),
        Err(StreamError::At { offset, cause }) => Err(Fault::BadStream { offset, cause }),
        Err(StreamError::OutOfMemory) => Err(Fault::OutOfMemory),
    }
}

// The view of the library's cell, where its layout is sound and no sizes are asked for devices.
fn cell_view(alloc: Global, library: &Library, inputs: &Inputs) -> Result<View, Fault>
    requires tables { AreMatched inputs.now.tables.source inputs.now.tables.target }
    requires built { AreBuilt inputs.now.tables.source inputs.now.asked }
    requires drawable { AreDrawable library.now.structures }
    ensures view { IfOk result (IsCheckedCell inputs.now library.now) }
    ensures refused { IfErr result (IsFaultOfParsed inputs.now library.now) }
{
    let layout = flat_cell(alloc, library, inputs)?;
    let view = sound_view(alloc, &layout, inputs)?;
    check_strays(alloc, inputs)?;
    Ok(view)
}

// The flat layout of the library's cell by the source's table, or why it isn't flattened.
fn flat_cell(alloc: Global, library: &Library, inputs: &Inputs) -> Result<Layout, Fault>
    requires tables { AreMatched inputs.now.tables.source inputs.now.tables.target }
    requires drawable { AreDrawable library.now.structures }
    ensures flat { IfOk result (IsFlattened library.now.structures inputs.now.asked.cell inputs.now.tables.source) }
    ensures refused { IfErr result (IsFaultOfParsed inputs.now library.now) }
{
    match flatten(alloc, library, &inputs.asked.cell, &inputs.tables.source) {
        Ok(layout) => Ok(layout),
        Err(error) => Err(flat_refusal(error)),
    }
}

// The view of a layout that has few strips and the shapes of a sound source, and breaks no rule of the source's table.
fn sound_view(alloc: Global, layout: &Layout, inputs: &Inputs) -> Result<View, Fault>
    requires tables { AreMatched inputs.now.tables.source inputs.now.tables.target }
    requires built { AreBuilt inputs.now.tables.source inputs.now.asked }
    requires masks { length layout.now.masks ≡ mask_count inputs.now.tables.source }
    requires points { ArePlain layout.now.labels }
    ensures view { IfOk result (IsSoundView inputs.now layout.now) }
    ensures refused { IfErr result (IsFaultOfLaid inputs.now layout.now) }
{
    let strips = layout_strips(alloc, layout, inputs)?;
    let view = layout_view(alloc, layout, strips, inputs)?;
    check_source(alloc, &view, inputs)?;
    Ok(view)
}

// The strips of a layout, where they are few.
fn layout_strips(alloc: Global, layout: &Layout, inputs: &Inputs) -> Result<Strips, Fault>
    requires tables { AreMatched inputs.now.tables.source inputs.now.tables.target }
    requires masks { length layout.now.masks ≡ mask_count inputs.now.tables.source }
    ensures strips { IfOk result (IsStripsOf layout.now inputs.now.tables.source) }
    ensures few { IfOk result (λ strips. length strips.list ≤ STRIP_LIMIT) }
    ensures refused { IfErr result (IsFaultOfLaid inputs.now layout.now) }
{
    match strips_of(alloc, layout, &inputs.tables.source, STRIP_LIMIT) {
        Ok(strips) => Ok(strips),
        Err(StripError::TooMany { count }) => Err(Fault::TooMany {
            what: What::Strips,
            count,
        }),
        Err(StripError::OutOfMemory) => Err(Fault::OutOfMemory),
    }
}

// The view of a layout, where it has the shapes of a sound source; or the first that it hasn't.
fn layout_view(
    alloc: Global,
    layout: &Layout,
    strips: Strips,
    inputs: &Inputs,
) -> Result<View, Fault>
    requires built { AreBuilt inputs.now.tables.source inputs.now.asked }
    requires masks { length layout.now.masks ≡ mask_count inputs.now.tables.source }
    requires points { ArePlain layout.now.labels }
    requires strips { IsStripsOf layout.now inputs.now.tables.source strips }
    requires few { length strips.list ≤ STRIP_LIMIT }
    ensures view { IfOk result (IsViewOf layout.now inputs.now.tables.source) }
    ensures same { IfOk result (λ view. view.strips ≡ strips) }
    ensures refused { IfErr result (IsFaultOfLaid inputs.now layout.now) }
{
    match view_of(alloc, layout, strips, &inputs.tables.source) {
        Ok(view) => Ok(view),
        Err(NetError::OutOfMemory) => Err(Fault::OutOfMemory),
        Err(NetError::SourceShape { shape, rect }) => Err(Fault::SourceShape { shape, rect }),
    }
}

// That the view breaks no rule of the source's table, or the first rule that it breaks.
fn check_source(alloc: Global, view: &View, inputs: &Inputs) -> Result<(), Fault>
    requires view { IsView inputs.now.tables.source view.now }
    requires table { IsUsable inputs.now.tables.source }
    ensures kept { OnOk result (BreaksNoRule (pos 1) inputs.now.tables.source (cells_of view.now.strips.list)) }
    ensures refused { IfErr result (IsFaultOfView inputs.now view.now) }
{
    match check_rules(alloc, view, &inputs.tables.source) {
        Ok(()) => Ok(()),
        Err(
            RuleError::Broken {
                rule,
                p,
                q,
                found,
                needed,
            },
        ) => Err(Fault::SourceRule {
            rule,
            p,
            q,
            found,
            needed,
        }),
        Err(RuleError::OutOfMemory) => Err(Fault::OutOfMemory),
    }
}
