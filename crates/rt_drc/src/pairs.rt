//! The check of the rules of two masks: enclosures, then distances. How a breach is found isn't known here.
ghost use Rattle.std.specs.Prelude.{◌≡◌, ◌<◌, ◌^◌, pos, length, map, Some, OnOk, IfErr};
ghost use Rattle.rt_rules.specs.Pairs.{enclose_at, apart_at, lower_of, HasMeasuredPairs};
ghost use Rattle.rt_rules.specs.Rules.{numbered, KeepsEnclose, KeepsDistance};
ghost use Rattle.rt_strips.specs.Placed.{placed};
ghost use Rattle.rt_strips.specs.StripsOf.{AreStrips};
ghost use Rattle.rt_tech.specs.declared.rules.RuleName.TheVariants.{Enclose as EncloseRule, Apart as ApartRule};
ghost use Rattle.rt_drc.specs.InOrder.{pair_rules, KeepAll, IsRefusal, IsBrokenBy, ShowsEnclosed, ShowsDistant};
ghost use Rattle.rt_drc.specs.Rows.{cells_of};
ghost use Rattle.rt_drc.specs.SoundCuts.{CutsAreSound};

use crate::answer::answer;
use crate::apart::distance_breach;
use crate::counting::Counted;
use crate::enclosures::enclosure_breach;
use crate::kinds::has_lower;
use rt_strips::Strip;
use rt_tech::{Apart, Enclose, RuleError, RuleName, Tech};
use std::alloc::Global;

/// Whether the strips keep the table's enclosures and distances, or the first one that they break. `lowers` are the numbers of the lower masks of the
/// strips of cuts.
pub(crate) fn check_pairs(
    alloc: Global,
    strips: &[Strip],
    lowers: &[u32],
    tech: &Tech,
) -> Result<(), RuleError>
    requires strips { AreStrips (map placed strips.now) }
    requires few { length strips.now < 2 ^ 32 }
    requires pairs { HasMeasuredPairs tech.now }
    requires cuts { CutsAreSound tech.now strips.now lowers.now }
    ensures kept { OnOk result (KeepAll tech.now (cells_of strips.now) (pair_rules tech.now)) }
    ensures broken { IfErr result (IsRefusal tech.now (cells_of strips.now) (pair_rules tech.now)) }
{
    if let Err(error) = check_encloses(alloc, strips, lowers, tech) {
        return Err(error);
    }
    check_aparts(alloc, strips, lowers, tech)
}

// The same of the enclosures.
fn check_encloses(
    alloc: Global,
    strips: &[Strip],
    lowers: &[u32],
    tech: &Tech,
) -> Result<(), RuleError>
    requires strips { AreStrips (map placed strips.now) }
    requires pairs { HasMeasuredPairs tech.now }
    requires cuts { CutsAreSound tech.now strips.now lowers.now }
    ensures kept { OnOk result (KeepAll tech.now (cells_of strips.now) (numbered EncloseRule 0 tech.now.encloses)) }
    ensures broken { IfErr result (IsRefusal tech.now (cells_of strips.now) (numbered EncloseRule 0 tech.now.encloses)) }
{
    for (n, enclose) in tech.encloses.as_slice().iter().enumerate() {
        if let Err(error) = check_enclose(alloc, strips, lowers, tech, n as u32, enclose) {
            return Err(error);
        }
    }
    Ok(())
}

// The same of the enclosure of a number: what the cut's pieces cover, or with a lower mask those that lie in it, lies in the mask with all cells around.
fn check_enclose(
    alloc: Global,
    strips: &[Strip],
    lowers: &[u32],
    tech: &Tech,
    n: u32,
    enclose: &Enclose,
) -> Result<(), RuleError>
    requires strips { AreStrips (map placed strips.now) }
    requires pairs { HasMeasuredPairs tech.now }
    requires cuts { CutsAreSound tech.now strips.now lowers.now }
    requires entry { enclose_at tech.now n ≡ Some enclose.now }
    ensures kept { OnOk result (KeepsEnclose (pos 1) tech.now (cells_of strips.now) (Some enclose.now)) }
    ensures broken { IfErr result (IsBrokenBy (EncloseRule n) enclose.now.number (ShowsEnclosed tech.now (cells_of strips.now) enclose.now)) }
{
    let counted = Counted {
        mask: enclose.cut,
        lower: lower_mask(tech, enclose),
        lowers,
    };
    let Ok(found) = enclosure_breach(alloc, strips, &counted, enclose.mask, &enclose.number) else {
        return Err(RuleError::OutOfMemory);
    };
    answer(RuleName::Enclose(n), &found, &enclose.number)
}

// The lower mask that pieces have to lie in for the enclosure to speak of them, if there is one.
fn lower_mask(tech: &Tech, enclose: &Enclose) -> Option<u32>
    ensures { result ≡ lower_of tech.now enclose.now }
{
    if has_lower(tech.masks.as_slice(), enclose.cut, enclose.mask) {
        Some(enclose.mask)
    } else {
        None
    }
}

// The same of the distances.
fn check_aparts(
    alloc: Global,
    strips: &[Strip],
    lowers: &[u32],
    tech: &Tech,
) -> Result<(), RuleError>
    requires strips { AreStrips (map placed strips.now) }
    requires few { length strips.now < 2 ^ 32 }
    requires pairs { HasMeasuredPairs tech.now }
    requires cuts { CutsAreSound tech.now strips.now lowers.now }
    ensures kept { OnOk result (KeepAll tech.now (cells_of strips.now) (numbered ApartRule 0 tech.now.aparts)) }
    ensures broken { IfErr result (IsRefusal tech.now (cells_of strips.now) (numbered ApartRule 0 tech.now.aparts)) }
{
    for (n, apart) in tech.aparts.as_slice().iter().enumerate() {
        if let Err(error) = check_apart(alloc, strips, lowers, tech, n as u32, apart) {
            return Err(error);
        }
    }
    Ok(())
}

// The same of the distance of a number: of what the first mask covers, or with a lower mask the pieces that lie in it, from the second mask.
fn check_apart(
    alloc: Global,
    strips: &[Strip],
    lowers: &[u32],
    tech: &Tech,
    n: u32,
    apart: &Apart,
) -> Result<(), RuleError>
    requires strips { AreStrips (map placed strips.now) }
    requires few { length strips.now < 2 ^ 32 }
    requires pairs { HasMeasuredPairs tech.now }
    requires cuts { CutsAreSound tech.now strips.now lowers.now }
    requires entry { apart_at tech.now n ≡ Some apart.now }
    ensures kept { OnOk result (KeepsDistance (pos 1) tech.now (cells_of strips.now) (Some apart.now)) }
    ensures broken { IfErr result (IsBrokenBy (ApartRule n) apart.now.number (ShowsDistant tech.now (cells_of strips.now) apart.now)) }
{
    let counted = Counted {
        mask: apart.a,
        lower: apart.on,
        lowers,
    };
    let Ok(found) = distance_breach(alloc, strips, &counted, apart.b, &apart.number) else {
        return Err(RuleError::OutOfMemory);
    };
    answer(RuleName::Apart(n), &found, &apart.number)
}
