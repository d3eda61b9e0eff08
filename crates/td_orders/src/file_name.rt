//! Names of files that a line of the input may give.
//!
//! The producer at the other end of a pipe chooses such a name. So it is of a file in one folder, which the operator chose.
ghost use Rattle.std.specs.Prelude.{◌≡◌, ◌||◌, ◌==◌, Some, true, false, bytes_eq, codes, IfOk, IfErr, IfSome, IfNone};
ghost use Rattle.std.specs.List.{list_all};
ghost use Rattle.td_orders.specs.Names.{is_plain, is_plain_name};

use std::alloc::Global;
use std::fmt;
use std::marker::Model;
use td_console::Fault;

/// The name of a file in a folder: printable ASCII without blanks and `/`, and neither `.` nor `..`.
#[derive(Debug, Drop)]
pub struct FileName {
    text: String,
}

impl Model for FileName {
    ghost use Rattle.std.specs.Prelude.{List, ℕ, ◌≡◌, true, string_bytes};
    ghost use Rattle.td_orders.specs.Names.{is_plain_name};

    ghost Value = { List ℕ };

    ghost view = { λ n. string_bytes n.text };

    ghost invariant = { λ n. is_plain_name (string_bytes n.text) ≡ true };
}

impl FileName {
    /// The name that a word is, where it is one. Refusal: `Memory`.
    pub(crate) fn of(alloc: Global, word: &str) -> Result<Option<FileName>, Fault>
        ensures some { IfOk result (λ name. IfSome name (λ n. (n ≡ word.now) × (is_plain_name word.now ≡ true))) }
        ensures none { IfOk result (λ name. IfNone name (is_plain_name word.now ≡ false)) }
        ensures err { IfErr result (λ f. f ≡ Fault.Memory) }
    {
        if !is_plain_name(word) {
            return Ok(None);
        }
        let text = String::from_str(alloc, word)?;
        Ok(Some(FileName { text }))
    }

    /// The name.
    pub fn as_str(&self) -> &str
        ensures name { result.now ≡ self.now }
        ensures plain { is_plain_name self.now ≡ true }
    {
        self.text.as_str()
    }
}

impl fmt::Display for FileName {
    ghost output = { λ n. Some n };

    fn fmt<W: fmt::Write>(&self, f: &mut fmt::Formatter<W>) -> fmt::Result {
        write!(f, "{}", self.text)
    }
}

/// Whether a word is the name of a file in a folder.
fn is_plain_name(word: &str) -> bool
    ensures { result ≡ is_plain_name word.now }
{
    are_plain(word.as_bytes()) && word != "." && word != ".."
}

fn are_plain(bytes: &[u8]) -> bool
    ensures { result ≡ list_all is_plain bytes.now }
{
    bytes.iter().all(|byte| is_plain(*byte))
}

/// Whether a byte is a printable ASCII character, but a blank and `/`.
fn is_plain(byte: u8) -> bool
    ensures { result ≡ is_plain byte }
{
    32 < byte && byte < 127 && byte != b'/'
}
