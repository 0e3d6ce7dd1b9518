//! What is tested before anything is drawn: names, circles, the depth and the elements.
ghost use Rattle.std.specs.Prelude.{MatchBool, IfErr, IfOk, OnOk};
ghost use Rattle.gds_flat.specs.Reach.{Deep, Shallow};
ghost use Rattle.gds_flat.specs.Refused.{FlatRefused};
ghost use Rattle.gds_flat.specs.Walking.{HasWalked};
ghost use Rattle.gds_flat.specs.Depths.{IsTree};
ghost use Rattle.gds_flat.specs.Drawings.{IsAcceptedWalk};

use crate::depths::{depths, rank_before};
use crate::elements::test_all;
use crate::error::FlatError;
use crate::limits::DEEPEST;
use crate::names::Names;
use crate::walk::{Walk, names_of, walked};
use rt_base::OutOfMemory;
use rt_tech::Tech;
use std::alloc::Global;

// The walk from the top, whose structures and elements are tested.
pub(crate) fn accepted(alloc: Global, names: &Names, tech: &Tech) -> Result<Walk, FlatError>
    ensures ok { IfOk result (IsAcceptedWalk names.now.structures.now names.now.top.now tech.now) }
    ensures err { IfErr result (FlatRefused names.now.structures.now names.now.top.now tech.now) }
{
    let walk = walked(alloc, names)?;
    accept_walk(alloc, names, &walk, tech)?;
    Ok(walk)
}

// Tests what a walk has reached.
fn accept_walk(alloc: Global, names: &Names, walk: &Walk, tech: &Tech) -> Result<(), FlatError>
    requires { HasWalked names.now.structures.now names.now.top.now walk.now }
    ensures ok { OnOk result (IsAcceptedWalk names.now.structures.now names.now.top.now tech.now walk.now) }
    ensures err { IfErr result (FlatRefused names.now.structures.now names.now.top.now tech.now) }
{
    match &walk.circle {
        Some(circle) => Err(FlatError::Cyclic {
            names: names_of(alloc, names.structures, circle.as_slice())?,
        }),
        None => accept_tree(alloc, names, walk, tech),
    }
}

// Tests what a walk without a circle has reached.
fn accept_tree(alloc: Global, names: &Names, walk: &Walk, tech: &Tech) -> Result<(), FlatError>
    requires { IsTree names.now.structures.now names.now.top.now walk.now }
    ensures ok { OnOk result (IsAcceptedWalk names.now.structures.now names.now.top.now tech.now walk.now) }
    ensures err { IfErr result (FlatRefused names.now.structures.now names.now.top.now tech.now) }
{
    if is_deep(alloc, names, walk)? {
        return Err(FlatError::TooDeep);
    }
    test_all(names, walk, tech)?;
    Ok(())
}

// Whether a chain from the top is too long.
fn is_deep(alloc: Global, names: &Names, walk: &Walk) -> Result<bool, OutOfMemory>
    requires { IsTree names.now.structures.now names.now.top.now walk.now }
    ensures { IfOk result (λ deep. MatchBool deep (Deep names.now.structures.now names.now.top.now) (Shallow names.now.structures.now names.now.top.now)) }
{
    let depths = depths(alloc, names, walk)?;
    let place = rank_before(names, walk, names.top, depths.len());
    Ok(depths[place] > DEEPEST)
}
