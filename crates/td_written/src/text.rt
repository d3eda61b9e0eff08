//! The text of a file's bytes.
ghost use Rattle.std.specs.Prelude.{◌≡◌, ◌<◌, string_bytes, IfOk};
ghost use Rattle.td_written.specs.Texts.{ascii, text_in};

use std::alloc::{AllocError, Global};

/// A byte, or `?` for one above 127.
fn ascii(byte: u8) -> u8
    ensures exact { result ≡ ascii byte }
    ensures small { result < 128 }
{
    if byte < 128 { byte } else { b'?' }
}

/// Bytes as a text, with `?` in the place of each above 127: a text of closures has neither in a word. Refusal: a growth was refused.
pub fn text_in(alloc: Global, bytes: &[u8]) -> Result<String, AllocError>
    ensures { IfOk result (λ text. string_bytes text ≡ text_in bytes.now) }
{
    let mut text = String::new(alloc);
    let mut rest = bytes;
    while let [byte, others @ ..] = rest {
        text.push(char::from(ascii(*byte)))?;
        rest = others;
    }
    Ok(text)
}
