//! One line of a checkpoint in text.
ghost use Rattle.std.specs.Prelude.{◌≡◌, ◌∷◌};
ghost use Rattle.td_plan.specs.Text.{words};
ghost use Rattle.td_states.specs.Lines.{two_words, said_by, line_of};

use td_console::{ascii_text, integer};
use td_plan::text::{is_passed_over, natural, next_word};
use td_stamp::State;

/// What a line says.
#[derive(Clone, Copy, Debug, PartialEq, Eq)]
pub enum StatesLine {
    /// Nothing: it is blank, or a comment.
    PassedOver,
    /// `kept E`: the epoch.
    Kept(u64),
    /// `last Q`: the greatest request number.
    Last(u64),
    /// `state VERTEX KEY A B`: what a vertex keeps for a key.
    Held(u64, u64, State),
}

/// What a line says, if it has a form.
pub fn read_line(line: &[u8]) -> Option<StatesLine>
    ensures { result ≡ line_of line.now }
{
    let text = ascii_text(line)?;
    if is_passed_over(text) {
        return Some(StatesLine::PassedOver);
    }
    read_words(text)
}

/// What the words of a line say: `kept E`, `last Q` or `state VERTEX KEY A B`.
fn read_words(line: &str) -> Option<StatesLine>
    ensures { result ≡ said_by (words line.now) }
{
    let (word, rest) = next_word(line)?;
    let (number, rest) = next_word(rest)?;
    match next_word(rest) {
        Some((key, rest)) => read_state(word, number, key, rest),
        None => read_two(word, number),
    }
}

/// What two words say: `kept E` or `last Q`.
fn read_two(word: &str, number: &str) -> Option<StatesLine>
    ensures { result ≡ two_words word.now number.now }
{
    if word == "kept" {
        return Some(StatesLine::Kept(natural(number)?));
    }
    if word == "last" {
        return Some(StatesLine::Last(natural(number)?));
    }
    None
}

/// What five words say, from the first three, and the line after them.
fn read_state(word: &str, vertex: &str, key: &str, rest: &str) -> Option<StatesLine>
    ensures { result ≡ said_by (word.now ∷ vertex.now ∷ key.now ∷ words rest.now) }
{
    let (a, rest) = next_word(rest)?;
    let (b, rest) = next_word(rest)?;
    if word != "state" || next_word(rest).is_some() {
        return None;
    }
    let vertex = natural(vertex)?;
    let key = natural(key)?;
    let a = integer(a)?;
    let b = integer(b)?;
    Some(StatesLine::Held(vertex, key, State { a, b }))
}
