//! How long the program's words ask to wait for a disk that another process has locked.
//!
//! Clap has no part in this: an option of each command would be a rule of each, and a word before the command is one rule of all.
ghost use Rattle.std.specs.Prelude.{◌≡◌, ◌↔◌, ◌≤◌, ℕ, true, IsTrue, IfOk, IfErr, IfSome, IfNone, map, drop, length, string_bytes};
ghost use Rattle.td_words.specs.Wait.{asks_to_wait, words_left, HasSeconds, IsWait};

use crate::job::WordsError;

/// The most seconds that can be waited: a day.
const MOST: u32 = 86_400;

/// How many seconds these words ask to wait, of which the first is the program's name, and the words that are left for `words`: those of
/// `td --wait SECONDS COMMAND ..` from SECONDS on, of 1 to 86400; and all words and 0, where they do not ask for it. Refusal: `Words`, where
/// no such number stands there.
pub fn wait_of<'a>(given: &'a [String]) -> Result<(u32, &'a [String]), WordsError>
    ensures left { IfOk result (λ r. r.1.now ≡ words_left (asks_to_wait (map string_bytes given.entry.now)) given.entry.now) }
    ensures seconds { IfOk result (λ r. IsWait (asks_to_wait (map string_bytes given.entry.now)) (map string_bytes r.1.now) r.0) }
    ensures err { IfErr result (λ e. (e ≡ WordsError.Words) × (asks_to_wait (map string_bytes given.entry.now) ≡ true)
        × ((seconds : ℕ) → HasSeconds (map string_bytes (drop 2 given.entry.now)) seconds → ⊥)) }
{
    if !asks_to_wait(given) {
        return Ok((0, given));
    }
    let left = &given[2..];
    match seconds_of(left) {
        Some(seconds) => Ok((seconds, left)),
        None => Err(WordsError::Words),
    }
}

/// Whether these words ask to wait.
fn asks_to_wait(given: &[String]) -> bool
    ensures asks { result ≡ asks_to_wait (map string_bytes given.now) }
    ensures two { result ≡ true → 2 ≤ length given.now }
{
    match given {
        [_, word, ..] => word.as_str() == "--wait",
        _ => false,
    }
}

/// The seconds with which words begin.
fn seconds_of(left: &[String]) -> Option<u32>
    ensures some { IfSome result (HasSeconds (map string_bytes left.now)) }
    ensures none { IfNone result ((seconds : ℕ) → HasSeconds (map string_bytes left.now) seconds → ⊥) }
{
    match left {
        [text, ..] => match text.as_str().parse::<u32>() {
            Ok(seconds) if is_wait(seconds) => Some(seconds),
            _ => None,
        },
        [] => None,
    }
}

/// Whether so many seconds may be waited.
fn is_wait(seconds: u32) -> bool
    ensures { IsTrue result ↔ ((1 ≤ seconds) × (seconds ≤ 86400)) }
{
    1 <= seconds && seconds <= MOST
}
