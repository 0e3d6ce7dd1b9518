//! What the beginning of a certificate tells.
ghost use Rattle.std.specs.Prelude.{◌≡◌};
ghost use Rattle.cert_text.specs.Beginnings.{behind_first_line, says_done};

/// Whether the text claims positions: its second line begins with `done `. No other line is looked at, and it takes no memory. (The format is this
/// project's own.)
pub fn claims_done(text: &[u8]) -> bool
    ensures { result ≡ says_done text.now }
{
    behind_first_line(text).starts_with(b"done ")
}

// What stands behind the first line feed, or nothing where there is none.
fn behind_first_line(text: &[u8]) -> &[u8]
    ensures { result.now ≡ behind_first_line text.now }
{
    for i in 0..text.len() {
        if text[i] == b'\n' {
            return &text[i + 1..];
        }
    }
    &[]
}
