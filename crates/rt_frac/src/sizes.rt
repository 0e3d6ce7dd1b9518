//! Numbers with a sign by their sizes.
ghost use Rattle.std.specs.Prelude.{◌≡◌};
ghost use Rattle.std.specs.Int.RustNames.{FitsSigned};
ghost use Rattle.std.specs.Int.{w128};
ghost use Rattle.std.specs.Option.{SomeIff};
ghost use Rattle.rt_frac.specs.Fracs.{signed_of, have_signs_differing};

// The number of that size, below 0 or not, where it fits.
pub(crate) fn signed(size: u128, negative: bool) -> Option<i128>
    ensures { SomeIff result (FitsSigned w128 (signed_of size negative)) (signed_of size negative) }
{
    if size <= 0x7fff_ffff_ffff_ffff_ffff_ffff_ffff_ffff {
        let number = size as i128;
        return Some(if negative { -number } else { number });
    }
    if negative && size == 0x8000_0000_0000_0000_0000_0000_0000_0000 {
        return Some(i128::MIN);
    }
    None
}

// Whether exactly one of the two is below 0.
pub(crate) fn signs_differ(a: &i128, b: &i128) -> bool
    ensures { result ≡ have_signs_differing a.now b.now }
{
    (*a < 0) != (*b < 0)
}
