ghost use Rattle.std.specs.Prelude.{◌≢◌, List};
ghost use Rattle.rt_tech.specs.declared.table.Tech.{Tech};
ghost use Rattle.rt_layout.specs.declared.layout.Layout.{Layout};
ghost use Rattle.gds_stream.specs.declared.library.Structure.{Structure as Part};
ghost use Rattle.gds_flat.specs.declared.error.FlatError.{FlatError};
ghost use Rattle.gds_flat.specs.declared.error.FlatError.TheVariants.{OutOfMemory};
ghost use Rattle.gds_flat.specs.Reach.{Name};
ghost use Rattle.gds_flat.specs.Refused.{IsFlattened, FlatRefused};
ghost use Rattle.gds_flat_laws.specs.Agreement.{AreOneRefusal};

/// Law: a structure of a library that is flattened isn't refused, but for want of memory. (This project's own.)
pub fn flattened_is_not_refused()
    ensures { (library : List Part) (top : Name) (tech : Tech) (layout : Layout) (error : FlatError)
        → IsFlattened library top tech layout → FlatRefused library top tech error → error ≢ OutOfMemory → ⊥ }
{}

/// Law: a structure of a library has one refusal at most by a table, but for want of memory; where it is that of a circle, the
/// circle may be another. (This project's own.)
pub fn one_refusal()
    ensures { (library : List Part) (top : Name) (tech : Tech) (a b : FlatError) → FlatRefused library top tech a
        → FlatRefused library top tech b → a ≢ OutOfMemory → b ≢ OutOfMemory → AreOneRefusal a b }
{}
