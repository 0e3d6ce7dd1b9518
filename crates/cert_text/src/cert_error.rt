//! Why no claim is read.
ghost use Rattle.std.specs.Prelude.{◌≡◌};
ghost use Rattle.cert_text.specs.declared.cert_error.CertError.TheVariants.{OutOfMemory as NoMemory};

use rt_base::OutOfMemory;

/// Why a text gives no claim. (This project's own.)
#[derive(Drop)]
pub enum CertError {
    /// The text is that of no claim in form within the limits.
    BadCert {
        /// The number of its first bad line, from 1.
        line: u64,
    },
    /// There was no memory for it.
    OutOfMemory,
}

impl From<OutOfMemory> for CertError {
    ghost from_gives = { λ _ error. error ≡ NoMemory };

    fn from(_error: OutOfMemory) -> CertError {
        CertError::OutOfMemory
    }
}
