//! The names of the masks that a broken rule is of, from the source's table.
ghost use Rattle.std.specs.Prelude.{◌≡◌, ◌++◌, [], IfOk, OnOk};
ghost use Rattle.rt_tables.specs.Tables.{IsTechOf};
ghost use Rattle.rt_tech.specs.declared.table.Tech.{Tech as Table};
ghost use Rattle.rt_tech.specs.declared.table.Which.TheVariants.{Source as OfSource};
ghost use Rattle.rt_run.specs.Answers.{AreNamesFor, IsBrokenIn};
ghost use Rattle.rt_run.specs.Naming.{mask_name, rule_names as names_of};

use rt_base::{List, OutOfMemory, Text};
use rt_keys::TableError;
use rt_retarget::Fault;
use rt_tables::read_tech;
use rt_tech::{RuleName, Tech, Which};
use std::alloc::Global;

/// The names that the line of a refusal says: of a broken rule those of its masks, from the source's table, which is read again for them; of another
/// refusal none. The one error is a want of memory.
pub fn names_for(alloc: Global, stable: &[u8], fault: &Fault) -> Result<List<Text>, OutOfMemory>
    requires { IsBrokenIn stable.now fault.now }
    ensures { IfOk result (AreNamesFor stable.now fault.now) }
{
    match fault {
        Fault::SourceRule { rule, .. } => names_in_table(alloc, stable, rule),
        _ => Ok(List::new(alloc)),
    }
}

// The names of a rule's masks in the source's table.
fn names_in_table(alloc: Global, stable: &[u8], rule: &RuleName) -> Result<List<Text>, OutOfMemory>
    requires { (table : Table) × IsTechOf OfSource stable.now table }
    ensures { IfOk result (λ names. (table : Table) × IsTechOf OfSource stable.now table × (names ≡ names_of table rule.now)) }
{
    match read_tech(alloc, stable, Which::Source) {
        Ok(table) => rule_names(alloc, &table, rule),
        Err(error) => no_memory(error),
    }
}

// A table that is valid isn't read only for want of memory.
fn no_memory(error: TableError) -> Result<List<Text>, OutOfMemory>
    requires { error ≡ TableError.OutOfMemory }
    ensures { OnOk result ⊥ }
{
    Err(OutOfMemory)
}

// The names of a rule's masks.
fn rule_names(alloc: Global, table: &Tech, rule: &RuleName) -> Result<List<Text>, OutOfMemory>
    ensures { IfOk result (λ names. names ≡ names_of table.now rule.now) }
{
    let mut names = List::new(alloc);
    match rule {
        RuleName::Width(mask) | RuleName::Space(mask) | RuleName::Size(mask) => {
            push_name(alloc, table, *mask, &mut names)?;
        }
        RuleName::Enclose(place) => {
            if let Some(enclose) = table.encloses.as_slice().get(*place as usize) {
                push_name(alloc, table, enclose.cut, &mut names)?;
                push_name(alloc, table, enclose.mask, &mut names)?;
            }
        }
        RuleName::Apart(place) => {
            if let Some(apart) = table.aparts.as_slice().get(*place as usize) {
                push_name(alloc, table, apart.a, &mut names)?;
                push_name(alloc, table, apart.b, &mut names)?;
            }
        }
        RuleName::Cap | RuleName::Ext | RuleName::Cross => {}
    }
    Ok(names)
}

// Appends the name of a mask that is there.
fn push_name(
    alloc: Global,
    table: &Tech,
    mask: u32,
    names: &mut List<Text>,
) -> Result<(), OutOfMemory>
    ensures { OnOk result (names.new ≡ names.old ++ mask_name table.now mask) }
{
    let masks = table.masks.as_slice();
    let number = mask as usize;
    if number >= masks.len() {
        return Ok(());
    }
    let name = masks[number].name.copy(alloc)?;
    names.push(name)
}
