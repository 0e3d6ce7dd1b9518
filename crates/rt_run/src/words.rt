//! The words of the command line, and the names that they give.
ghost use Rattle.std.specs.Prelude.{◌≡◌, ℕ, MatchBool, MatchOption};
ghost use Rattle.rt_run.specs.Words.{bytes_of, Names, IsFileWord, AreProper, AreWordsFor, words_of};
ghost use Rattle.rt_run.specs.Given.{names_in};

/// The names that the words of a retargeting give.
#[derive(Drop)]
pub struct Retarget<'a> {
    /// The stream of the source.
    pub source: &'a str,
    /// The source's rule table.
    pub stable: &'a str,
    /// The target's rule table.
    pub ttable: &'a str,
    /// The sizes file.
    pub sizes: &'a str,
    /// The stream to be written.
    pub out: &'a str,
    /// The certificate to be written.
    pub cert: &'a str,
}

/// The names that the words give, or None where they are of no form.
pub fn retarget_words(words: &[String]) -> Option<Retarget<'_>>
    ensures { MatchOption result ((names : Names) → AreWordsFor (bytes_of words.now) names → ⊥) (λ r. AreWordsFor (bytes_of words.now) (names_in r)) }
{
    let names = spelled_names(words)?;
    if are_proper(&names) {
        Some(names)
    } else {
        None
    }
}

// The names that stand in the words, whether or not they are proper.
fn spelled_names(words: &[String]) -> Option<Retarget<'_>>
    ensures { MatchOption result ((names : Names) → bytes_of words.now ≡ words_of names → ⊥) (λ r. bytes_of words.now ≡ words_of (names_in r)) }
{
    let [command, source, stable, ttable, sizes, out, cert] = words else {
        return None;
    };
    if command.as_str() != "retarget" {
        return None;
    }
    Some(Retarget {
        source: source.as_str(),
        stable: stable.as_str(),
        ttable: ttable.as_str(),
        sizes: sizes.as_str(),
        out: out.as_str(),
        cert: cert.as_str(),
    })
}

// Whether each name can name a file, and OUT's isn't CERT's.
fn are_proper(names: &Retarget<'_>) -> bool
    ensures { MatchBool result (AreProper (names_in names.now)) (AreProper (names_in names.now) → ⊥) }
{
    is_file_word(names.source)
        && is_file_word(names.stable)
        && is_file_word(names.ttable)
        && is_file_word(names.sizes)
        && is_file_word(names.out)
        && is_file_word(names.cert)
        && names.out != names.cert
}

// Whether a word can name a file.
fn is_file_word(word: &str) -> bool
    ensures { MatchBool result (IsFileWord word.now) (IsFileWord word.now → ⊥) }
{
    match word.as_bytes() {
        [] => false,
        [first, ..] => *first != b'-',
    }
}
