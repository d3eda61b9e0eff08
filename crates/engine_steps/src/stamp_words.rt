//! Pointstamps and times, as rows write them.
use td_reach::{Place, Stamp};
use td_stamp::{LEVELS, Time};

/// The pointstamp of the words `vertex NUMBER TIME` or `edge NUMBER TIME`.
pub(crate) fn stamp_of(text: &str) -> Option<Stamp> {
    let mut words = text.split_whitespace();
    let place = words.next()?;
    let place = place_of(place, words.next()?.parse().ok()?)?;
    let time = time_of(words.next()?)?;
    Some(Stamp { time, place })
}

/// The pointstamps on both sides of the word `to`.
pub(crate) fn pair_of(text: &str) -> Option<(Stamp, Stamp)> {
    let (from, to) = text.split_once(" to ")?;
    Some((stamp_of(from)?, stamp_of(to)?))
}

fn place_of(name: &str, number: u8) -> Option<Place> {
    match name {
        "vertex" => Some(Place::Vertex(number)),
        "edge" => Some(Place::Edge(number)),
        _ => None,
    }
}

/// The time of the text `EPOCH` or `EPOCH<COUNTER,..>`.
fn time_of(text: &str) -> Option<Time> {
    let Some((epoch, turns)) = text.split_once('<') else {
        return Some(Time::new(text.parse().ok()?));
    };
    let mut time = Time::new(epoch.parse().ok()?);
    for turn in turns.strip_suffix(">")?.split(',') {
        time = in_turn(&time, turn.parse().ok()?)?;
    }
    Some(time)
}

/// A time in one loop more, in the turn of this number, if there may be one more.
fn in_turn(time: &Time, turn: u16) -> Option<Time> {
    if time.depth() >= LEVELS {
        return None;
    }
    let mut time = time.enter();
    for _turn in 0..turn {
        time = again(&time)?;
    }
    Some(time)
}

/// A time once more round its innermost loop, if it is in one.
fn again(time: &Time) -> Option<Time> {
    let turn = *time.turns().last()?;
    if turn < u32::MAX {
        Some(time.again())
    } else {
        None
    }
}
