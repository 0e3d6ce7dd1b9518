//! Text as XML spells it.
ghost use Rattle.std.specs.Prelude.{◌≡◌, ◌<◌, ◌++◌, List, ℕ, All, OnOk, string_bytes};
ghost use Rattle.picture.specs.Escapes.{spelled, escaped, IsPlain};

use rt_base::Text;
use std::alloc::AllocError;

/// Appends the text, where each character that means something in XML is spelled by its name: no `<`, `>`, `"` or `'` is left, and a `&` only
/// begins such a name. The one error is a want of memory.
pub fn push_escaped(xml: &mut String, text: &Text) -> Result<(), AllocError>
    ensures { OnOk result (string_bytes xml.new ≡ string_bytes xml.old ++ escaped text.now) }
{
    for byte in text.as_slice() {
        push_byte(xml, *byte)?;
    }
    Ok(())
}

// Appends a byte of a text.
#[tactic(auto, using(std::proofs::lemmas::Str::encode_ascii), unfolding(crate::specs::Escapes::spelled))]
fn push_byte(xml: &mut String, byte: u8) -> Result<(), AllocError>
    requires { byte < 128 }
    ensures { OnOk result (string_bytes xml.new ≡ string_bytes xml.old ++ spelled byte) }
{
    match byte {
        b'&' => xml.push_str("&amp;"),
        b'<' => xml.push_str("&lt;"),
        b'>' => xml.push_str("&gt;"),
        b'"' => xml.push_str("&quot;"),
        b'\'' => xml.push_str("&apos;"),
        _ => xml.push(char::from(byte)),
    }
}

/// Law: an escaped text has no `<`, `>`, `"` and `'`.
#[tactic(auto, using(crate::proofs::Plain::escaped_is_plain))]
pub fn escaped_is_plain()
    ensures { (text : List ℕ) → All IsPlain (escaped text) }
{}
