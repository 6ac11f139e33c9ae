//! Names of files, written in ASCII.
ghost use Rattle.std.specs.Prelude.{◌≡◌, ◌++◌, IfOk, OnOk, chars, string_bytes};
ghost use Rattle.der_view.specs.Characters.{escaped, escaped_all};

use std::alloc::{AllocError, Global};

/// Returns a text as the characters of a string are shown: all but 20 to 7E is escaped, and `"` and
/// `\` too. Fails only if an allocation fails.
pub(crate) fn escaped(alloc: Global, text: &str) -> Result<String, AllocError>
    ensures { IfOk result (λ written. string_bytes written ≡ escaped_all (chars text.now)) }
{
    let mut written = String::new(alloc);
    for character in text.chars() {
        push_escaped(alloc, &mut written, character)?;
    }
    Ok(written)
}

/// Appends a character, escaped if it isn't shown as itself. Fails only if an allocation fails.
fn push_escaped(alloc: Global, text: &mut String, character: char) -> Result<(), AllocError>
    ensures { OnOk result (string_bytes text.new ≡ string_bytes text.old ++ escaped character) }
{
    let code = character as u32;
    if code == 0x22 || code == 0x5C {
        text.push('\\')?;
        text.push(character)
    } else if code >= 0x20 && code <= 0x7E {
        text.push(character)
    } else {
        let escape = format!(in alloc; "\\u{{{code:X}}}")?;
        text.push_str(escape.as_str())
    }
}
