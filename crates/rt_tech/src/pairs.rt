//! Tests on layer pairs: a layer of a stream with its second number.
ghost use Rattle.std.specs.Prelude.{◌≡◌};
ghost use Rattle.rt_tech.specs.Words as spec;

/// Whether the two layer pairs are the same.
pub fn same_pair(a: (i16, i16), b: (i16, i16)) -> bool
    ensures { result ≡ spec.same_pair a b }
{
    a.0 == b.0 && a.1 == b.1
}

// Whether an ignored pair stands for the pair.
fn stands_for(ignored: (i16, i16), pair: (i16, i16)) -> bool
    ensures { result ≡ spec.stands_for ignored pair }
{
    ignored.0 == pair.0 && (ignored.1 == pair.1 || ignored.1 == -1)
}

/// Whether one of the ignored layer pairs stands for the pair: it is the pair, or it has the pair's layer and -1 as its
/// second number, which stands for every number.
pub fn is_ignored(ignored: &[(i16, i16)], pair: (i16, i16)) -> bool
    ensures { result ≡ spec.is_ignored ignored.now pair }
{
    ignored.iter().any(|p| stands_for(*p, pair))
}
