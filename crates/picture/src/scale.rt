//! The lengths that a scale bar may have.
ghost use Rattle.std.specs.Prelude.{◌≤◌, max};
ghost use Rattle.picture.specs.Scale.{IsRound};

/// A round length that is at most `most`, where there is one: 1, 2 or 5 times a power of ten.
pub fn round_length(most: u64) -> u64
    ensures round { IsRound result }
    ensures short { result ≤ max 1 most }
{
    let mut unit: u64 = 1;
    while unit <= most / 10 {
        unit *= 10;
    }
    if unit <= most / 5 {
        unit * 5
    } else if unit <= most / 2 {
        unit * 2
    } else {
        unit
    }
}
