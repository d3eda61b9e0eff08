//! What a line asks.
ghost use Rattle.std.specs.Prelude.{◌≡◌};
ghost use Rattle.td_plan.specs.Text.{words};
ghost use Rattle.td_questions.specs.Words.{percentile, wanted_by, wanted_of, question_of, fold_of};

use td_plan::text::{natural, next_word};
use td_plan::{Kind, Plan};

/// What is wanted of the states that a vertex keeps.
#[derive(Clone, Copy, Debug, PartialEq, Eq)]
pub enum Wanted {
    /// `get V KEY`: the state of a key.
    Get(u64),
    /// `list V [FROM [COUNT]]`: the states from a key on in the order of keys, the first so many where a number is given.
    Range(u64, Option<u64>),
    /// `top V COUNT`: so many with the greatest a, of one a from the least key on.
    Top(u64),
    /// `least V COUNT`: so many with the least a, of one a from the least key on.
    Least(u64),
    /// `rank V P`: the one at a percentile of all, in the order of `least`.
    Rank(u64),
}

/// A question: the number of a vertex, and what is wanted of it.
#[derive(Clone, Copy, Debug, PartialEq, Eq)]
pub struct Question {
    pub vertex: u64,
    pub wanted: Wanted,
}

/// What a line asks, if it has a form.
pub fn read_question(line: &str) -> Option<Question>
    ensures { result ≡ question_of (words line.now) }
{
    let (word, rest) = next_word(line)?;
    let (vertex, rest) = next_word(rest)?;
    let vertex = natural(vertex)?;
    let wanted = read_wanted(word, rest)?;
    Some(Question { vertex, wanted })
}

/// The fold of a plan with this number, if it is one.
pub fn fold_of(plan: &Plan, vertex: u64) -> Option<u8>
    ensures { result ≡ fold_of plan.now vertex }
{
    for each in plan.vertices() {
        if matches!(each.kind(), Kind::Fold(_)) && u64::from(each.number()) == vertex {
            return Some(each.number());
        }
    }
    None
}

/// What a word asks of a vertex, with what comes after this on the line.
fn read_wanted(word: &str, rest: &str) -> Option<Wanted>
    ensures { result ≡ wanted_of word.now (words rest.now) }
{
    let Some((number, rest)) = next_word(rest) else {
        return if word == "list" {
            Some(Wanted::Range(0, None))
        } else {
            None
        };
    };
    match next_word(rest) {
        None => wanted_by(word, natural(number)?),
        Some((count, rest)) => {
            if word != "list" || next_word(rest).is_some() {
                return None;
            }
            let from = natural(number)?;
            let count = natural(count)?;
            Some(Wanted::Range(from, Some(count)))
        }
    }
}

/// What a word asks of one number.
fn wanted_by(word: &str, number: u64) -> Option<Wanted>
    ensures { result ≡ wanted_by word.now number }
{
    if word == "get" {
        return Some(Wanted::Get(number));
    }
    if word == "list" {
        return Some(Wanted::Range(number, None));
    }
    if word == "top" {
        return Some(Wanted::Top(number));
    }
    if word == "least" {
        return Some(Wanted::Least(number));
    }
    if word == "rank" {
        return percentile(number);
    }
    None
}

/// A percentile, where it is 100 at most.
fn percentile(number: u64) -> Option<Wanted>
    ensures { result ≡ percentile number }
{
    if number <= 100 {
        Some(Wanted::Rank(number))
    } else {
        None
    }
}
