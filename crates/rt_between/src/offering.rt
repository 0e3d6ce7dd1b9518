//! Names that are added to a list.
ghost use Rattle.std.specs.Prelude.{◌≡◌, ◌++◌, OnOk};

use rt_base::{List, OutOfMemory};
use rt_rows::Name;

/// Adds these names, in order. The one error is a want of memory. (This project's own.)
pub fn add_names(names: &mut List<Name>, more: &[Name]) -> Result<(), OutOfMemory>
    ensures { OnOk result (names.new ≡ names.old ++ more.now) }
{
    for name in more {
        names.push(*name)?;
    }
    Ok(())
}
