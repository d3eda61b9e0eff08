//! Makes the closures of the catalogue, and does what the program's words ask for.
//!
//! `td` is words, files and standard streams round engines that are proved for any disk, reader and writer. What this crate adds
//! is wiring: most of it has no contract, and rows test it.
#![tactic(auto)]

ghost use Rattle.td_words.specs.Command.{HasWorkers};
ghost use Rattle.td.specs.Whole.{IsLawfulEngine};

mod closures;
mod disk;
mod disk_closures;
mod engine;
mod faults;
mod file_cause;
mod host;
mod language;
mod lock;
mod meter;
mod plan;
mod progress;
mod read_only;
mod refusal;
mod room;
mod shelves;
mod states;
mod status;
mod streams;

use crate::closures::closures_at;
use crate::disk::{copy_disk, format_disk, open_disk, open_disk_or_tell, upgrade_disk};
use crate::disk_closures::closures_of_disk;
use crate::engine::{Engine, StreamOptions, Telling};
use crate::faults::FAULTS;
use crate::language::LANGUAGE;
use crate::plan::print_plan;
use crate::progress::stream_told;
use crate::read_only::{dump_disk, dump_live, show_disk, show_live};
use crate::refusal::Refusal;
use crate::shelves::both_shelves;
use crate::states::{load_disk, states_of_disk};
use crate::status::Places;
use crate::streams::Awaited;
use std::fs::File;
use std::process::ExitCode;
use std::rt::{Env, Files, Stderr};
use std::sync::Wait;
use std::thread::Threads;
use std::{env, io};
use td_catalogue::{Catalogue, Shelves};
use td_console::{Fault, StdReader, StdWriter, read_picks};
use td_feed::Marked;
use td_words::{Job, WordsError, wait_of, words};
use td_written::{batch, feed, run, sim};

/// The program's name and version, and the logic of the kit that it is written for. Whether a program was proved is not its own
/// to say. The same source makes a program of which nothing is proved. `./build` writes `td.proof` beside the one that it proved.
const VERSION: &str = "td 0.1 (logic dac8208d650f15bf)\n";

fn main(rt: HostRuntime) -> ExitCode {
    let given = match given_words(&rt) {
        Ok(given) => given,
        Err(error) => return refused(&rt, error),
    };
    let (wait, given) = match wait_of(&given) {
        Ok(split) => split,
        Err(error) => return refused(&rt, error),
    };
    match words(rt.alloc(), given) {
        Ok(job) => {
            let tells_who = tells_who(&job);
            ended(&rt, tells_who, done(&rt, rt.stderr(), job, wait))
        }
        Err(error) => refused(&rt, error),
    }
}

/// Whether the exit status of what is asked for tells who is to do something about a fault; else it is 1 for each.
fn tells_who(job: &Job<'_>) -> bool {
    matches!(
        job,
        Job::Stream { .. }
            | Job::Show { live: true, .. }
            | Job::Dump { .. }
            | Job::Copy { .. }
            | Job::States { .. }
            | Job::Load { .. }
            | Job::Plan { .. }
    )
}

/// Does what is asked for. A disk that another process has locked is waited for, `wait` seconds at most. How far a stream has come is
/// told to `stderr`, if that is asked for. Whether that is a terminal is asked of `Stderr`, since no bound of a runtime says it.
fn done<
    R: Files<File = File>
        + Places
        + Input
        + Print
        + Eprint
        + AllocGlobal
        + Threads
        + Wait
        + Sync
        + Send
        + Copy
        + 'static,
>(rt: &R, stderr: Stderr, job: Job<'_>, wait: u32) -> Result<(), Refusal>
    requires workers { HasWorkers job }
{
    match job {
        Job::Batch { closures } => {
            let closures = closures_at(rt, closures)?;
            run_engine(rt, Engine::Batch(closures))
        }
        Job::Run { workers, closures } => {
            let closures = closures_at(rt, closures)?;
            run_engine(rt, Engine::Run(workers, closures))
        }
        Job::Sim {
            workers,
            picks,
            closures,
        } => {
            let picks = read_picks(rt.alloc(), picks)?;
            let closures = closures_at(rt, closures)?;
            run_engine(rt, Engine::Sim(workers, picks, closures))
        }
        Job::Format {
            disk,
            plan,
            m,
            n,
            k,
            closures,
        } => format_disk(rt, disk, plan, m, n, k, closures, wait),
        Job::Feed {
            disk: path,
            plan,
            workers,
        } => {
            let (disk, plan) = open_disk(rt, path, plan, wait)?;
            let closures = closures_of_disk(rt, path)?;
            run_engine(rt, Engine::Feed(disk, plan, workers, closures))
        }
        Job::Stream {
            disk: path,
            plan,
            workers,
            cut_every,
            most,
            progress,
            marks,
            refuse,
            at,
            hold,
            room,
            ask,
            status,
            copies,
        } => {
            let (disk, plan) = open_disk_or_tell(rt, path, plan, wait)?;
            let closures = closures_of_disk(rt, path)?;
            let telling = Telling {
                stderr,
                progress,
                room,
                hold,
                status,
            };
            let options = StreamOptions {
                cut_every,
                most,
                marks,
                refuse,
                at,
                hold,
                ask,
                copies,
            };
            run_engine(
                rt,
                Engine::Stream(disk, path, plan, workers, options, telling, closures),
            )
        }
        Job::Show { disk, plan, live } => {
            if live {
                show_live(rt, disk, plan)
            } else {
                Ok(show_disk(rt, disk, plan, wait)?)
            }
        }
        Job::Dump {
            disk,
            plan,
            live,
            at,
        } => {
            if live {
                dump_live(rt, disk, plan, at)
            } else {
                dump_disk(rt, disk, plan, at, wait)
            }
        }
        Job::Upgrade { disk, plan } => Ok(upgrade_disk(rt, disk, plan, wait)?),
        Job::Copy {
            disk,
            plan,
            new,
            m,
            n,
            k,
            until,
        } => copy_disk(rt, disk, plan, new, m, n, k, until, wait),
        Job::States { disk, plan } => states_of_disk(rt, disk, plan, wait),
        Job::Load {
            new,
            plan,
            m,
            n,
            k,
            map,
            closures,
        } => load_disk(rt, new, plan, m, n, k, map, closures),
        Job::Plan {
            plan,
            dot,
            closures,
        } => print_plan(rt, plan, dot, closures),
        Job::Help(text) => print_text(rt, text.as_str()),
        Job::Version => print_text(rt, VERSION),
        Job::Faults => print_text(rt, FAULTS),
        Job::Language => print_language(rt),
    }
}

/// Prints the text on closures in text, and the catalogue behind it.
fn print_language<R: Print + AllocGlobal>(rt: &R) -> Result<(), Refusal> {
    let shelves = both_shelves(rt.alloc())?;
    print_text(rt, LANGUAGE)?;
    print_text(rt, shelves.as_str())
}

/// Prints a text of the program's own.
fn print_text<R: Print>(rt: &R, text: &str) -> Result<(), Refusal> {
    match print!(rt; "{text}") {
        Ok(()) => Ok(()),
        Err(_) => Err(Refusal::Plain(Fault::Output)),
    }
}

/// The program's own words. A word that is no text is none of the program's.
fn given_words<R: Env + AllocGlobal>(rt: &R) -> Result<Vec<String>, WordsError> {
    let given = match env::args(rt) {
        Ok(args) => args,
        Err(error) if error.kind() == io::ErrorKind::OutOfMemory => return Err(WordsError::Memory),
        Err(_) => return Err(WordsError::Words),
    };
    match given.collect::<Vec<String>>(rt.alloc()) {
        Ok(given) => Ok(given),
        Err(_) => Err(WordsError::Memory),
    }
}

/// Nothing can be done for the words.
fn refused<R: Eprint + AllocGlobal>(rt: &R, error: WordsError) -> ExitCode {
    match error {
        WordsError::Words => {
            let _ = rt.eprint("td: words\n");
            ExitCode::from(2)
        }
        WordsError::Memory => {
            tell(rt, &Refusal::Plain(Fault::Memory));
            ExitCode::FAILURE
        }
    }
}

/// How what was asked for ended. Its status tells who is to do something about a fault, or is 1.
fn ended<R: Eprint + AllocGlobal>(
    rt: &R,
    tells_who: bool,
    answer: Result<(), Refusal>,
) -> ExitCode {
    let Err(refusal) = answer else {
        return ExitCode::SUCCESS;
    };
    tell(rt, &refusal);
    if tells_who {
        ExitCode::from(refusal.status())
    } else {
        ExitCode::FAILURE
    }
}

/// Answers standard input with the closures of the catalogue, of both shelves, and what closures in text the engine has.
fn run_engine<
    R: Files<File = File>
        + Places
        + Input
        + Print
        + AllocGlobal
        + Threads
        + Wait
        + Sync
        + Send
        + Copy
        + 'static,
>(rt: &R, engine: Engine<'_>) -> Result<(), Refusal>
    requires lawful { IsLawfulEngine engine }
{
    let mut reader = StdReader(Awaited::new(rt, rt.reader()));
    let mut writer = StdWriter(Awaited::new(rt, io::writer(rt)));
    match engine {
        Engine::Batch(closures) => Ok(batch::<_, _, Catalogue, Shelves>(
            rt.alloc(),
            &mut reader,
            &mut writer,
            Shelves,
            closures,
        )?),
        Engine::Run(workers, closures) => Ok(run::<_, _, Catalogue, Shelves>(
            rt.alloc(),
            &mut reader,
            &mut writer,
            Shelves,
            closures,
            workers,
        )?),
        Engine::Sim(workers, picks, closures) => Ok(sim::<_, _, Catalogue, Shelves>(
            rt.alloc(),
            &mut reader,
            &mut writer,
            Shelves,
            closures,
            workers,
            picks.as_slice(),
        )?),
        Engine::Feed(disk, plan, workers, closures) => {
            let fed = feed::<_, _, _, Catalogue, Shelves, _>(
                rt,
                rt.alloc(),
                disk,
                &plan,
                workers,
                &mut reader,
                writer,
                Shelves,
                closures,
            );
            Ok(fed.ended?)
        }
        Engine::Stream(disk, path, plan, workers, options, telling, closures) => {
            if options.marks {
                stream_told(
                    rt,
                    disk,
                    path,
                    &plan,
                    workers,
                    options,
                    reader,
                    Marked(writer),
                    telling,
                    closures,
                )
            } else {
                stream_told(
                    rt, disk, path, &plan, workers, options, reader, writer, telling, closures,
                )
            }
        }
    }
}

/// Prints a refusal on standard error.
fn tell<R: Eprint + AllocGlobal>(rt: &R, refusal: &Refusal) {
    let _ = match refusal.line(rt.alloc()) {
        Ok(line) => rt.eprint(line.as_str()),
        Err(_) => rt.eprint("td: memory\n"),
    };
}
