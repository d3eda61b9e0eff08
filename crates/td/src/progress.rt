//! A stream, and beside it, where that is asked for, a thread that tells how far it has come.
//!
//! The thread writes on change, so each line of a log says something new and the last one is how the stream ended. It is not
//! joined: to know that a write would wait takes `poll`. Its lines take no memory, so none of them can be refused. On a
//! terminal that also has the output, the lines run into one another. A status file is written each second.
ghost use Rattle.std.specs.Prelude.{◌≡◌, ◌≤◌, [], ◌∷◌, IfOk, IfSome};

use crate::disk::hold_streams;
use crate::disk_closures::text_of_disk;
use crate::engine::{StreamOptions, Telling};
use crate::host::StreamHost;
use crate::meter::{Gauge, Metered, Noticed};
use crate::refusal::Refusal;
use crate::room::{Room, Warned};
use crate::status::{Places, StatusFile};
use std::alloc::{AllocError, Global};
use std::fmt::{Display, Formatter, Write};
use std::fs::File;
use std::io::IsTerminal;
use std::rt::{Files, Stderr};
use std::sync::atomic::{AtomicBool, Ordering};
use std::sync::{Arc, Wait};
use std::thread::{Parker, Threads};
use std::time::Duration;
use std::{fmt, thread};
use td_catalogue::{Catalogue, Shelves};
use td_console::{Fault, Source};
use td_disk::{FileDisk, ReadAhead};
use td_feed::Voice;
use td_formula::Closure;
use td_head::Shape;
use td_plan::Plan;
use td_store::standing::KeeperError;
use td_watch::{Reader, Watch, Writer};
use td_written::{StreamOptions as HowToStream, stream};

/// Something that comes once, and that another thread waits for.
#[derive(Drop)]
struct Moment {
    has_come: AtomicBool,
    parker: Parker,
}

impl Moment {
    /// Not yet.
    fn new() -> Moment {
        Moment {
            has_come: AtomicBool::new(false),
            parker: Parker::new(),
        }
    }

    /// Waits for it, a second at most, and answers whether it has come. It may be woken for no reason, and then answers before
    /// its second is over.
    fn wait<R: Wait>(&self, rt: &R) -> bool {
        self.parker.park_timeout(rt, Duration::from_secs(1));
        self.has_come.load(Ordering::SeqCst)
    }

    /// It has come.
    fn tell(&self) {
        self.has_come.store(true, Ordering::SeqCst);
        self.parker.unpark();
    }
}

/// The end of a stream, and the end of what is told of it by the thread that follows it.
#[derive(Drop)]
struct Ending {
    of_stream: Moment,
    of_telling: Moment,
}

impl Ending {
    /// Neither has come.
    fn new() -> Ending {
        Ending {
            of_stream: Moment::new(),
            of_telling: Moment::new(),
        }
    }
}

/// Does what `stream` does, and meanwhile tells how far it has come, where that is asked for. Refusals: those of `stream`, of a
/// disk in the file at `path`, with place and cause; and `Memory`, before it is called, where there is no room for a watch or no thread.
pub(crate) fn stream_told<
    I: Source + Drop,
    W: Voice + Drop,
    R: Files<File = File> + Places + Threads + Wait + AllocGlobal + Sync + Send + Copy + 'static,
>(
    rt: &R,
    disk: ReadAhead<FileDisk>,
    path: &str,
    plan: &Plan,
    workers: u8,
    options: StreamOptions<'_>,
    reader: I,
    writer: W,
    telling: Telling<'_>,
    closures: Vec<Closure>,
) -> Result<(), Refusal>
    requires some { 1 ≤ workers }
    requires most { workers ≤ 16 }
{
    let mut disk = disk;
    let shape = shape_told(rt.alloc(), &mut disk, plan, telling);
    let held = held_for(rt, telling, options)?;
    let closures_text = text_for_copies(rt, path, options)?;
    let ending = Arc::new(rt.alloc(), Ending::new())?;
    let gauge = Arc::new(rt.alloc(), Gauge::new())?;
    let watch = followed(rt, telling, path, shape, &gauge, &ending)?;
    let disk = Metered::new(disk, Arc::try_clone(&gauge)?, shape);
    let told = Arc::try_clone(&gauge)?;
    let host = StreamHost::new(rt, told, options.copies, closures_text);
    let reader = Noticed::new(reader, gauge);
    let fed = stream::<_, _, _, _, Catalogue, Shelves, _>(
        rt,
        rt.alloc(),
        disk,
        plan,
        workers,
        HowToStream {
            cut_every: options.cut_every,
            most: options.most,
            refuse: options.refuse,
            placing: options.at,
            hold: options.hold,
            questions: options.ask,
            copies: options.copies.is_some(),
        },
        reader,
        writer,
        watch,
        host,
        Shelves,
        closures,
    );
    ending.of_stream.tell();
    if telling.is_any() {
        // A thread that is still told nothing then waits for a pipe that nobody reads, and is left behind.
        let _ = ending.of_telling.wait(rt);
    }
    drop(held);
    ended_as(rt.alloc(), fed.disk, path, plan, options, fed.ended)
}

/// How a stream ended: as its fault, with the place and the cause on the disk in the file at `path`.
fn ended_as(
    alloc: Global,
    disk: Metered<ReadAhead<FileDisk>>,
    path: &str,
    plan: &Plan,
    options: StreamOptions<'_>,
    ended: Result<(), Fault>,
) -> Result<(), Refusal> {
    match ended {
        Ok(()) => Ok(()),
        Err(Fault::Keeper(KeeperError::NotPassed(epoch))) if options.most.is_some() => {
            Err(Refusal::TooMuchWork(epoch))
        }
        Err(fault) => {
            let mut disk = disk;
            let failure = disk.inner().inner().last_failure();
            Err(
                Refusal::Plain(fault)
                    .on_disk(alloc, path, failure)
                    .for_room(alloc, &mut disk, plan),
            )
        }
    }
}

/// What a disk has room for, where that is told; None where the disk is refused, which the stream then says.
fn shape_told(
    alloc: Global,
    disk: &mut ReadAhead<FileDisk>,
    plan: &Plan,
    telling: Telling<'_>,
) -> Option<Shape> {
    if !telling.has_room() {
        return None;
    }
    match td_head::read(alloc, disk, plan) {
        Ok(head) => Some(head.shape),
        Err(_) => None,
    }
}

/// Takes the numbers of the standard streams, where one is closed and files are opened later: a status file, and copies.
fn held_for<R: Files<File = File>>(
    rt: &R,
    telling: Telling<'_>,
    options: StreamOptions<'_>,
) -> Result<Option<[File; 3]>, Fault> {
    if telling.status.is_some() || options.copies.is_some() {
        hold_streams(rt)
    } else {
        Ok(None)
    }
}

/// The text of the closures of the disk in the file at `path`, if it has one and copies are made, which have it too.
fn text_for_copies<R: Files<File = File> + AllocGlobal>(
    rt: &R,
    path: &str,
    options: StreamOptions<'_>,
) -> Result<Option<Vec<u8>>, Refusal> {
    match options.copies {
        Some(_folder) => text_of_disk(rt, path),
        None => Ok(None),
    }
}

/// The writer of a watch that a thread follows until an ending has come; none where nothing is told. Refusal: `Memory`.
fn followed<R: Places + Threads + Wait + AllocGlobal + Sync + Send + Copy + 'static>(
    rt: &R,
    telling: Telling<'_>,
    path: &str,
    shape: Option<Shape>,
    gauge: &Arc<Gauge, Global>,
    ending: &Arc<Ending, Global>,
) -> Result<Option<Writer>, Fault>
    ensures { IfOk result (λ watch. IfSome watch (λ w. w.words ≡ 0 ∷ 0 ∷ 0 ∷ [])) }
{
    if !telling.is_any() {
        return Ok(None);
    }
    let Ok(
        Watch {
            writer,
            mut readers,
        },
    ) = Watch::new(rt.alloc(), [0, 0, 0], 1)
    else {
        return Err(Fault::Memory);
    };
    let Some(reader) = readers.pop() else {
        unreachable!()
    };
    let gauge = Arc::try_clone(gauge)?;
    let follower = Follower::new(rt.alloc(), telling, path, shape, gauge)?;
    let ending = Arc::try_clone(ending)?;
    let here = *rt;
    match thread::spawn(rt, move || follow(&here, follower, reader, &ending)) {
        Ok(_) => Ok(Some(writer)),
        Err(_) => Err(Fault::Memory),
    }
}

/// Tells how far a watch has come, each second and at the end. A write to standard error that fails is passed over. Where one waits, since
/// nobody reads a pipe that is full, the thread is left behind at the end.
fn follow<R: Places + Wait>(rt: &R, follower: Follower, mut reader: Reader, ending: &Ending) {
    let mut follower = follower;
    for _ in rt.forever() {
        // Asked before the words are read: at the end these are the last.
        let is_last = ending.of_stream.wait(rt);
        follower.tell(rt, &mut reader, is_last);
        if is_last {
            break;
        }
    }
    follower.end_line();
    ending.of_telling.tell();
}

/// What a line says: how far a stream has come, where outputs are held which epoch was seen last, and what room its disk has, where that
/// is asked for and known.
#[derive(Clone, Copy, Debug, PartialEq, Eq)]
struct Line {
    acked: u64,
    done: u64,
    kept: u64,
    seen: Option<u64>,
    room: Option<Room>,
}

impl Display for Line {
    fn fmt<W: Write>(&self, f: &mut Formatter<W>) -> fmt::Result {
        let Line {
            acked,
            done,
            kept,
            seen,
            room,
        } = self;
        write!(f, "acked {acked} done {done} kept {kept}")?;
        if let Some(seen) = seen {
            write!(f, " seen {seen}")?;
        }
        if let Some(room) = room {
            write!(f, " {room}")?;
        }
        Ok(())
    }
}

/// What tells how far a stream has come, beside its watch.
#[derive(Drop)]
struct Follower {
    stderr: Stderr,
    is_terminal: bool,
    has_lines: bool,
    has_room: bool,
    holds: bool,
    shape: Option<Shape>,
    gauge: Arc<Gauge, Global>,
    status: Option<StatusFile>,
    written: Option<Line>,
    warned: Warned,
}

impl Follower {
    /// Nothing was told yet.
    fn new(
        alloc: Global,
        telling: Telling<'_>,
        disk: &str,
        shape: Option<Shape>,
        gauge: Arc<Gauge, Global>,
    ) -> Result<Follower, AllocError> {
        let status = match telling.status {
            Some(path) => Some(StatusFile::new(alloc, path, disk)?),
            None => None,
        };
        Ok(Follower {
            stderr: telling.stderr,
            is_terminal: telling.stderr.is_terminal(),
            has_lines: telling.progress || telling.room,
            has_room: telling.room,
            holds: telling.hold,
            shape,
            gauge,
            status,
            written: None,
            warned: Warned::new(),
        })
    }

    /// Tells how far a watch has come, where that is new, and writes the status file. What room there is, is known once the disk is recovered.
    fn tell<R: Places>(&mut self, rt: &R, reader: &mut Reader, is_last: bool) {
        // Asked before the words are read: where the disk is recovered, these are its own. What is counted is never behind them.
        let shape = if self.gauge.is_read() {
            self.shape
        } else {
            None
        };
        let [acked, done, kept] = reader.read();
        let counts = self.gauge.counts();
        let seen = self.seen(kept);
        let mut line = Line {
            acked,
            done,
            kept,
            seen,
            room: None,
        };
        let Some(shape) = shape else {
            self.write_line(line, is_last);
            return;
        };
        let room = Room::of(shape, acked.saturating_sub(kept), counts.states);
        if self.has_room {
            line.room = Some(room);
        }
        self.write_line(line, is_last);
        let (stderr, before) = (self.stderr, self.before_a_line());
        self.warned.warn(stderr, room, before);
        if let Some(file) = &mut self.status {
            let status = file.status(acked, done, kept, seen, room, counts, is_last);
            file.write(rt, stderr, status, before);
        }
    }

    /// The last epoch that was seen, where outputs are held. It is never behind the one that is kept, which was read before.
    fn seen(&self, kept: u64) -> Option<u64> {
        if self.holds {
            Some(self.gauge.seen().max(kept))
        } else {
            None
        }
    }

    /// Writes a line, where lines are asked for: each second in which it is another one; and at the end, if it is another one, or none was
    /// written. On a terminal it is written over the line before, which is no longer, or has blanks at its end.
    fn write_line(&mut self, line: Line, is_last: bool) {
        let is_new = match self.written {
            Some(before) => line != before,
            None => is_last || line.acked > 0 || line.done > 0 || line.kept > 0,
        };
        if !self.has_lines || !is_new {
            return;
        }
        let stderr = self.stderr;
        let _ = match (self.is_terminal, line.room) {
            (true, None) => eprint!(stderr; "\r{line}"),
            (true, Some(_)) => eprint!(stderr; "\r{line}          "),
            (false, _) => eprintln!(stderr; "{line}"),
        };
        self.written = Some(line);
    }

    /// What a line begins with that is no such line: a terminal's line is ended.
    fn before_a_line(&self) -> &'static str {
        if self.is_terminal && self.written.is_some() {
            "\n"
        } else {
            ""
        }
    }

    /// Ends the line of a terminal.
    fn end_line(&self) {
        if self.is_terminal && self.has_lines {
            let _ = self.stderr.eprint("\n");
        }
    }
}
