//! Why no positions are told.
ghost use Rattle.std.specs.Prelude.{◌≡◌};
ghost use Rattle.rt_path.specs.declared.path_error.PathError.TheVariants.{OutOfMemory as WantOfMemory};

use rt_base::OutOfMemory;
use rt_rows::Proof;

/// Why the least positions of rows of differences aren't told. (This project's own.)
#[derive(Drop)]
pub enum PathError {
    /// No positions meet the rows.
    Refuted {
        /// The proof that none do.
        proof: Proof,
    },
    /// There was no memory for them.
    OutOfMemory,
}

impl From<OutOfMemory> for PathError {
    ghost from_gives = { λ _ error. error ≡ WantOfMemory };

    fn from(_error: OutOfMemory) -> PathError {
        PathError::OutOfMemory
    }
}
