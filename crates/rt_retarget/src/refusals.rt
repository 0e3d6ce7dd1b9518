//! What the layers below refuse, as a refusal of the job. It knows no file.
ghost use Rattle.std.specs.Prelude.{◌≡◌};
ghost use Rattle.rt_retarget.specs.Jobs.{IsTableRefusal, IsSizesRefusal, IsFlatRefusal};

use crate::answer::{Fault, What};
use gds_flat::FlatError;
use rt_base::OutOfMemory;
use rt_keys::TableError;
use rt_tech::Which;

impl From<OutOfMemory> for Fault {
    ghost use Rattle.rt_retarget.specs.declared.answer.Fault.TheVariants.{OutOfMemory as NoMemory};

    ghost from_gives = { λ _ fault. fault ≡ NoMemory };

    fn from(_error: OutOfMemory) -> Fault {
        Fault::OutOfMemory
    }
}

/// The refusal of a table, of two tables or of stray sizes.
pub fn table_refusal(which: Which, error: TableError) -> Fault
    ensures { IsTableRefusal which error result }
{
    match error {
        TableError::BadToml => Fault::TableToml { which },
        TableError::BadTable { key, cause } => Fault::BadTable { which, key, cause },
        TableError::TablesDiffer { key } => Fault::TablesDiffer { key },
        TableError::BadSizes { key, cause } => Fault::BadSizes { key, cause },
        TableError::OutOfMemory => Fault::OutOfMemory,
    }
}

/// The refusal of a sizes file.
pub fn sizes_refusal(error: TableError) -> Fault
    ensures { IsSizesRefusal error result }
{
    match error {
        TableError::BadToml => Fault::SizesToml,
        error => table_refusal(Which::Target, error),
    }
}

/// The refusal of a cell that isn't flattened. Want of memory has one form, whichever layer wants it.
pub fn flat_refusal(error: FlatError) -> Fault
    ensures { IsFlatRefusal error result }
{
    match error {
        FlatError::Unsupported { offset, odd } => Fault::Unsupported { offset, odd },
        FlatError::NoSuchStructure { name } => Fault::NoSuchStructure { name },
        FlatError::Cyclic { names } => Fault::Cyclic { names },
        FlatError::UnmappedLayer { layer, number } => Fault::UnmappedLayer { layer, number },
        FlatError::ArrayStep { offset } => Fault::ArrayStep { offset },
        FlatError::CoordinateRange { offset } => Fault::CoordinateRange { offset },
        FlatError::TooMany { count } => Fault::TooMany {
            what: What::Items,
            count,
        },
        FlatError::TooDeep => Fault::TooDeep,
        FlatError::OutOfMemory => Fault::OutOfMemory,
    }
}
