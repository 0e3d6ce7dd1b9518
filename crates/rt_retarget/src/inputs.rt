//! The inputs beside the source: the two rule tables and the sizes file.
ghost use Rattle.std.specs.Prelude.{◌≡◌, [], All, IfOk, IfErr, OnOk, MatchBool, None};
ghost use Rattle.rt_tech.specs.Tech.{IsGrid};
ghost use Rattle.rt_tables.specs.Tables.{IsTechOf};
ghost use Rattle.rt_tables.specs.Forms.{HaveSameForm};
ghost use Rattle.rt_sizes.specs.SizesFile.{DescribesSizes};
ghost use Rattle.rt_sizes.specs.Wishes.{wishes_fault};
ghost use Rattle.rt_view.specs.Shapes.{IsWiring};
ghost use Rattle.rt_retarget.specs.Files.{AreTables, AreFiles, AreBuilt, IsTargetOf};
ghost use Rattle.rt_retarget.specs.Jobs.{IsTableFaultOf, IsFormFaultOf, IsSizesFaultOf, IsFaultOfTarget, IsFaultOfTables, IsFaultOfInputs, IsFaultOfSound};

use crate::answer::Fault;
use crate::refusals::{sizes_refusal, table_refusal};
use rt_sizes::{read_sizes, wishes};
use rt_tables::{read_tech, same_form};
use rt_tech::{Mask, Mirror, Role, Sizes, Tech, Which};
use std::alloc::Global;

/// Two rule tables of one form.
#[derive(Drop)]
pub struct Tables {
    /// The source's rule table.
    pub source: Tech,
    /// The target's rule table.
    pub target: Tech,
}

/// What the tables and the sizes file hold.
#[derive(Drop)]
pub struct Inputs {
    /// The rule tables.
    pub tables: Tables,
    /// What the sizes file asks for.
    pub asked: Sizes,
}

/// What the tables and the sizes file hold, or the first of them that isn't valid, and why. The source's table goes
/// before the target's, that they have one form before the sizes file.
pub fn read_inputs(
    alloc: Global,
    stable: &[u8],
    ttable: &[u8],
    sizes: &[u8],
) -> Result<Inputs, Fault>
    ensures read { IfOk result (λ inputs. AreFiles stable.now ttable.now sizes.now inputs.tables.source inputs.tables.target inputs.asked) }
    ensures refused { IfErr result (IsFaultOfInputs stable.now ttable.now sizes.now) }
{
    let tables = read_tables(alloc, stable, ttable)?;
    let asked = read_asked(alloc, sizes, &tables.target)?;
    Ok(Inputs { tables, asked })
}

// The two tables, or the first that isn't valid, or that they don't have one form.
fn read_tables(alloc: Global, stable: &[u8], ttable: &[u8]) -> Result<Tables, Fault>
    ensures read { IfOk result (λ tables. AreTables stable.now ttable.now tables.source tables.target) }
    ensures refused { IfErr result (IsFaultOfTables stable.now ttable.now) }
{
    let source = read_table(alloc, stable, Which::Source)?;
    let target = read_target(alloc, ttable, &source)?;
    Ok(Tables { source, target })
}

// The target's table, which has the form of the source's.
fn read_target(alloc: Global, bytes: &[u8], source: &Tech) -> Result<Tech, Fault>
    ensures read { IfOk result (IsTargetOf source.now bytes.now) }
    ensures refused { IfErr result (IsFaultOfTarget source.now bytes.now) }
{
    let target = read_table(alloc, bytes, Which::Target)?;
    compare(alloc, source, &target)?;
    Ok(target)
}

// The table that the bytes are.
fn read_table(alloc: Global, bytes: &[u8], which: Which) -> Result<Tech, Fault>
    ensures read { IfOk result (IsTechOf which bytes.now) }
    ensures refused { IfErr result (IsTableFaultOf which bytes.now) }
{
    match read_tech(alloc, bytes, which) {
        Ok(tech) => Ok(tech),
        Err(error) => Err(table_refusal(which, error)),
    }
}

// That the tables have one form.
fn compare(alloc: Global, source: &Tech, target: &Tech) -> Result<(), Fault>
    ensures same { OnOk result (HaveSameForm source.now target.now) }
    ensures refused { IfErr result (IsFormFaultOf source.now target.now) }
{
    match same_form(alloc, source, target) {
        Ok(()) => Ok(()),
        Err(error) => Err(table_refusal(Which::Target, error)),
    }
}

// What the sizes file asks for.
fn read_asked(alloc: Global, bytes: &[u8], target: &Tech) -> Result<Sizes, Fault>
    requires { IsGrid target.now.grid }
    ensures read { IfOk result (DescribesSizes target.now bytes.now) }
    ensures refused { IfErr result (IsSizesFaultOf target.now bytes.now) }
{
    match read_sizes(alloc, bytes, target) {
        Ok(asked) => Ok(asked),
        Err(error) => Err(sizes_refusal(error)),
    }
}

/// Whether the files ask for what is built: masks of metal and cuts alone, no mirror.
pub fn are_built(source: &Tech, asked: &Sizes) -> bool
    ensures { MatchBool result (AreBuilt source.now asked.now) (AreBuilt source.now asked.now → ⊥) }
{
    are_wiring(source.masks.as_slice()) && asked.mirror == Mirror::None
}

// Whether all masks are metals or cuts.
fn are_wiring(masks: &[Mask]) -> bool
    ensures { MatchBool result (All IsWiring masks.now) (All IsWiring masks.now → ⊥) }
{
    masks.iter().all(is_wiring)
}

// Whether a mask is one of metal or of cuts.
fn is_wiring(mask: &Mask) -> bool
    ensures { MatchBool result (IsWiring mask.now) (IsWiring mask.now → ⊥) }
{
    mask.role == Role::Metal || mask.role == Role::Cut
}

/// That the sizes file has sizes for no device, since the cell has none; or the first that it has.
pub fn check_strays(alloc: Global, inputs: &Inputs) -> Result<(), Fault>
    ensures none { OnOk result (wishes_fault inputs.now.asked [] ≡ None) }
    ensures refused { IfErr result (IsFaultOfSound inputs.now) }
{
    match wishes(alloc, &inputs.asked, &[]) {
        Ok(_) => Ok(()),
        Err(error) => Err(table_refusal(Which::Target, error)),
    }
}
