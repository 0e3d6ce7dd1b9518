//! The whole job, from the bytes of the four files to what is answered.
ghost use Rattle.std.specs.Prelude.{◌≡◌, ◌<◌, ◌≤◌, [], length, IfOk, IfErr};
ghost use Rattle.rt_retarget.specs.Answers.{IsOutcomeOf, IsFaultOf};
ghost use Rattle.rt_retarget.specs.Jobs.{IsJobOfFiles, given};

use crate::answer::{Fault, Outcome};
use crate::inputs::read_inputs;
use crate::output::stream_of;
use crate::source::read_source;
use gds_stream::Library;
use rt_arena::Reads;
use rt_base::List;
use rt_place::PlaceError;
use rt_strips::Climbs;
use rt_tech::Sizes;
use rt_view::Job;
use std::alloc::Global;

// What is moved: the job, the library that its strips are from, and what is asked for.
#[derive(Drop)]
struct Work {
    job: Job,
    library: Library,
    asked: Sizes,
}

/// Moves the cell of a source stream to the target's rules, at the least positions that keep its arrangement, with its nets and labels.
///
/// The four files are the source stream, its rule table, the target's rule table and the sizes file. They are looked at
/// in this order, and the first that holds is answered: `TableToml` and `BadTable` of the source's table, then of the
/// target's; `TablesDiffer`; `SizesToml` and `BadSizes`; `NotBuilt`, where a mask is neither metal nor a cut or a mirror is
/// asked for; `BadStream`; the refusals of the flattening, `TooMany` of items among them; `TooMany` of strips; `SourceShape`; `SourceRule`;
/// `BadSizes`, where there are sizes for a device;
/// `Infeasible` across and upwards, where no positions meet the template of that axis. `OutOfMemory` comes only for want of memory, and want of memory is
/// answered in no other form. No planes are read yet, so the ledger of reads stays as it is.
pub fn retarget<L>(
    alloc: Global,
    source: &[u8],
    stable: &[u8],
    ttable: &[u8],
    sizes: &[u8],
    reads: &mut Reads<L>,
) -> Result<Outcome, Fault>
    ensures done { IfOk result (IsOutcomeOf (given source.now stable.now ttable.now sizes.now)) }
    ensures refused { IfErr result (IsFaultOf (given source.now stable.now ttable.now sizes.now)) }
    ensures reads { reads.new ≡ reads.old }
{
    let work = read_work(alloc, source, stable, ttable, sizes)?;
    match stream_of(alloc, &work.job, &work.library.name, &work.asked.cell) {
        Ok(bytes) => Ok(Outcome::Done {
            gds: List::of(bytes),
            cert: List::new(alloc),
            report: List::new(alloc),
        }),
        Err(PlaceError::NoneMeet { axis }) => Ok(Outcome::Infeasible {
            axis,
            cert: List::new(alloc),
        }),
        Err(PlaceError::OutOfMemory) => Err(Fault::OutOfMemory),
    }
}

// The job of the four files, or why they are refused.
fn read_work(
    alloc: Global,
    source: &[u8],
    stable: &[u8],
    ttable: &[u8],
    sizes: &[u8],
) -> Result<Work, Fault>
    ensures job { IfOk result (λ work. IsJobOfFiles (given source.now stable.now ttable.now sizes.now) work.library work.asked work.job) }
    ensures refused { IfErr result (IsFaultOf (given source.now stable.now ttable.now sizes.now)) }
{
    let inputs = read_inputs(alloc, stable, ttable, sizes)?;
    let found = read_source(alloc, source, &inputs)?;
    let climbs = Climbs::of(alloc, &found.view.strips)?;
    Ok(Work {
        job: Job {
            view: found.view,
            climbs,
            source: inputs.tables.source,
            target: inputs.tables.target,
            wishes: List::new(alloc),
            pairs: List::new(alloc),
        },
        library: found.library,
        asked: inputs.asked,
    })
}
