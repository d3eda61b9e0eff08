//! Commands.
use td_disk::Fill;
use td_stamp::{Entry, Rec};

/// What a line asks for.
#[derive(Clone, Copy)]
pub(crate) enum Command<'a> {
    /// `closures all`, `closures none`: whether there are closures from here on.
    Closures(bool),
    /// `format M N K`: a fresh disk of that shape.
    Format(u32, u32, u32),
    /// `blank BYTES`: a fresh disk of so many bytes, all of them 0.
    Blank(u64),
    /// `stop K`: the disk stops at its K-th write or sync from here on.
    Stop(u64),
    /// `crash old`, `crash new`, `crash HH`: what a crash leaves, where each range that was written since the last sync has
    /// its old bytes, its new ones, or this byte all over.
    Crash(Fill),
    /// `byte AT HH`: another byte stands there.
    Byte(u64, u8),
    /// `show`: what the disk tells, in lines.
    Show,
    /// A call of a keeper that recovers the disk for it.
    Keeper(KeeperCall<'a>),
    /// `feed WORKERS`, with the lines that follow up to a line `end`.
    Feed(u8, &'a str),
    /// `meet WORKERS`, with the lines that follow up to a line `end`.
    Meet(u8, &'a str),
}

/// What a keeper is asked for.
#[derive(Clone, Copy)]
pub(crate) enum KeeperCall<'a> {
    /// `recover`: what the disk tells.
    Recover,
    /// `submit INPUT KEY VAL, ..`
    Submit(&'a str),
    /// `numbers`: the last request number, and the version of the format.
    Numbers,
}

/// The command of a line, and the lines after those that are its own.
pub(crate) fn next_command<'a>(line: &'a str, rest: &'a str) -> Option<(Command<'a>, &'a str)> {
    let (name, words) = line.split_once(' ').unwrap_or((line, ""));
    if name != "feed" && name != "meet" {
        return Some((command_of(name, words)?, rest));
    }
    let workers = words.parse().ok()?;
    let (lines, rest) = until_end(rest)?;
    if name == "feed" {
        Some((Command::Feed(workers, lines), rest))
    } else {
        Some((Command::Meet(workers, lines), rest))
    }
}

/// The lines before a line `end`, and those after it.
fn until_end(text: &str) -> Option<(&str, &str)> {
    match text.strip_prefix("end\n") {
        Some(rest) => Some(("", rest)),
        None => text.split_once("\nend\n"),
    }
}

/// The command of this name.
fn command_of<'a>(name: &str, words: &'a str) -> Option<Command<'a>> {
    match (name, words) {
        ("closures", words) => Some(Command::Closures(words == "all")),
        ("format", words) => format_of(words),
        ("blank", bytes) => Some(Command::Blank(bytes.parse().ok()?)),
        ("stop", k) => Some(Command::Stop(k.parse().ok()?)),
        ("crash", fill) => Some(Command::Crash(fill_of(fill)?)),
        ("byte", words) => byte_of(words),
        ("show", "") => Some(Command::Show),
        ("recover", "") => Some(Command::Keeper(KeeperCall::Recover)),
        ("submit", entries) => Some(Command::Keeper(KeeperCall::Submit(entries))),
        ("numbers", "") => Some(Command::Keeper(KeeperCall::Numbers)),
        _ => None,
    }
}

/// The shape of the words `M N K`.
fn format_of(text: &str) -> Option<Command<'_>> {
    let mut words = text.split_whitespace();
    let m = words.next()?.parse().ok()?;
    let n = words.next()?.parse().ok()?;
    let k = words.next()?.parse().ok()?;
    Some(Command::Format(m, n, k))
}

fn byte_of(text: &str) -> Option<Command<'_>> {
    let (at, byte) = text.split_once(' ')?;
    Some(Command::Byte(at.parse().ok()?, hexadecimal(byte)?))
}

fn fill_of(text: &str) -> Option<Fill> {
    match text {
        "old" => Some(Fill::Old),
        "new" => Some(Fill::New),
        byte => Some(Fill::All(hexadecimal(byte)?)),
    }
}

fn hexadecimal(text: &str) -> Option<u8> {
    u8::from_str_radix(text, 16).ok()
}

/// The entry of the words `INPUT KEY VAL`.
pub(crate) fn entry_of(text: &str) -> Option<Entry> {
    let mut words = text.split_whitespace();
    let input = words.next()?.parse().ok()?;
    let key = words.next()?.parse().ok()?;
    let val = words.next()?.parse().ok()?;
    Some(Entry {
        input,
        rec: Rec { key, val },
    })
}
