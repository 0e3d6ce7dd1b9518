//! Names that are added to a list, a few at a time.
ghost use Rattle.std.specs.Prelude.{◌<◌, ◌^◌, length, map, OnOk};
ghost use Rattle.rt_strips.specs.Placed.{placed};
ghost use Rattle.rt_strips.specs.StripsOf.{AreStrips};
ghost use Rattle.rt_strips.specs.Seams.{AreSeamsOf};
ghost use Rattle.rt_vtemplate.specs.Added.{AreAdded, IsOfFirst};
ghost use Rattle.rt_vtemplate.specs.Kinds.{IsOfWhole, IsOfStrip, IsOfStanding, IsOfTwo};
ghost use Rattle.rt_vtemplate.specs.Steps.{IsOfSeam};

use rt_base::{List, OutOfMemory};
use rt_rows::Name;
use rt_strips::{Seam, Strips, seams, touching};
use std::alloc::Global;

/// Adds the names that every template has.
pub(crate) fn add_of_whole(names: &mut List<Name>) -> Result<(), OutOfMemory>
    ensures { OnOk result (AreAdded IsOfWhole names.old names.new) }
{
    names.push(Name::Zero)?;
    names.push(Name::Top)?;
    Ok(())
}

/// Adds the names of each of so many strips.
pub(crate) fn add_of_strips(names: &mut List<Name>, count: u32) -> Result<(), OutOfMemory>
    ensures { OnOk result (AreAdded (IsOfFirst IsOfStrip count) names.old names.new) }
{
    for i in 0..count {
        add_of_strip(names, i)?;
    }
    Ok(())
}

// Adds the names of a strip.
fn add_of_strip(names: &mut List<Name>, i: u32) -> Result<(), OutOfMemory>
    ensures { OnOk result (AreAdded (IsOfStrip i) names.old names.new) }
{
    names.push(Name::Lo(i))?;
    names.push(Name::Hi(i))?;
    names.push(Name::Tall(i))?;
    Ok(())
}

/// Adds the names of each two strips of which the second stands on the first.
pub(crate) fn add_standing(
    alloc: Global,
    names: &mut List<Name>,
    strips: &Strips,
) -> Result<(), OutOfMemory>
    requires few { length strips.now.list < 2 ^ 32 }
    requires strips { AreStrips (map placed strips.now.list) }
    ensures { OnOk result (AreAdded (IsOfTwo (IsOfStanding (map placed strips.now.list))) names.old names.new) }
{
    let found = seams(alloc, strips.list.as_slice())?;
    add_of_seams(names, strips, found.as_slice())?;
    Ok(())
}

// Adds the names of the strips of each seam, if the one stands on the other.
fn add_of_seams(names: &mut List<Name>, strips: &Strips, seams: &[Seam]) -> Result<(), OutOfMemory>
    requires seams { AreSeamsOf (map placed strips.now.list) seams.now }
    ensures { OnOk result (AreAdded (IsOfFirst (IsOfSeam (map placed strips.now.list) seams.now) (length seams.now)) names.old names.new) }
{
    for seam in seams {
        add_of_standing(names, strips, seam.below, seam.above)?;
    }
    Ok(())
}

// Adds the names of two strips, if the second stands on the first.
fn add_of_standing(
    names: &mut List<Name>,
    strips: &Strips,
    below: u32,
    above: u32,
) -> Result<(), OutOfMemory>
    requires lower { below < length strips.now.list }
    requires upper { above < length strips.now.list }
    ensures { OnOk result (AreAdded (IsOfStanding (map placed strips.now.list) below above) names.old names.new) }
{
    if touching(strips, below, above) {
        names.push(Name::On(below, above))?;
        names.push(Name::Under(below, above))?;
    }
    Ok(())
}
