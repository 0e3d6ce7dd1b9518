//! The laws of this crate, each a function without a body whose contract is the law: what is refused at a stage isn't at the next one, and
//! where nothing is refused there is one job and one outcome.
ghost use Rattle.rt_retarget.specs.Ladder.{NoTableIsntRead, BadTableIsntRead, TwoFormsArentRead, NoSizesArentRead, BadSizesArentRead, MoreIsntParsed, NoStreamIsntParsed, UnflattenedIsntLaid, TooManyIsntStripped, MisshapenIsntShaped, UnsoundIsntSound, StraysArentWished};
ghost use Rattle.rt_retarget.specs.OneAnswer.{OneJob, InfeasibleIsntDone, InfeasibleAlongOne, DoneIsOne, OneOutcome};

/// Law: files of which a table or the sizes file is refused, or whose tables are of two forms, aren't read.
pub fn refused_tables_and_sizes_are_not_read()
    ensures no_table { NoTableIsntRead }
    ensures bad_table { BadTableIsntRead }
    ensures two_forms { TwoFormsArentRead }
    ensures no_sizes { NoSizesArentRead }
    ensures bad_sizes { BadSizesArentRead }
{}

/// Law: files that are refused for what isn't built, for their stream or for its flattening have no layout.
pub fn refused_sources_have_no_layout()
    ensures more { MoreIsntParsed }
    ensures no_stream { NoStreamIsntParsed }
    ensures unflattened { UnflattenedIsntLaid }
{}

/// Law: files that are refused for their strips, for a shape, for a broken rule or for stray sizes aren't moved. With the two laws
/// above, a refusal at one stage excludes each answer of a later stage.
pub fn refused_layouts_are_not_moved()
    ensures too_many { TooManyIsntStripped }
    ensures misshapen { MisshapenIsntShaped }
    ensures unsound { UnsoundIsntSound }
    ensures strays { StraysArentWished }
{}

/// Law: files have one job at most, from one library by one list of what is asked for: its view, its tables, its wishes and pairs are the same,
/// and its table of climbs tells the same of all strips. Only the rows of that table may be of another width, with anything behind the bits of strips.
pub fn files_have_one_job()
    ensures { OneJob }
{}

/// Law: of the outcomes of files, which are all of the last stage, one at most is true. Infeasible files aren't moved, they are infeasible along
/// one axis alone, and files are moved to the same bytes; so two outcomes are one.
pub fn files_have_one_outcome()
    ensures infeasible { InfeasibleIsntDone }
    ensures axis { InfeasibleAlongOne }
    ensures bytes { DoneIsOne }
    ensures one { OneOutcome }
{}
