//! What the program is asked to do, from the words that it is given.
ghost use Rattle.std.specs.Prelude.{◌≡◌, ◌≢◌, ◌⊎◌, ◌↔◌, ◌≤◌, ℕ, Bool, true, false, IsTrue, IfOk, IfErr, IfSome, IfNone, map, string_bytes};
ghost use Rattle.std.specs.Prelude.{Option, Ok, Some, None, codes};
ghost use Rattle.std.specs.Borrow.{Bor};
ghost use Rattle.clap.specs.Words.{Text, found_of, first_of, kind_of, rows_of, subcommand_rows_of};
ghost use Rattle.td_words.specs.declared.job.Job.{Job as AnyJob};
ghost use Rattle.td_words.specs.Command.{asks_version, asks_faults, asks_language, IsAsked, IsNamed, IsRefused, IsNotTaken};
ghost use Rattle.td_words.specs.Command.{IsNumber, IsWorkers, HasWorkers, IsOption, IsCutEvery, IsFlag, IsFile, HasFiles, HasShape, may_hold};
ghost use Rattle.td_words.specs.Examples.{Examples};
ghost use Rattle.td_words.specs.Jobs.{IsHelp, IsOf, IsTextAsked};

use crate::commands::command;
use crate::job::{Job, WordsError};
use crate::table::GREATEST;
use clap::error::ErrorKind;
use clap::{ArgMatches, Error};
use std::alloc::Global;

/// What these words ask for, of which the first is the program's name. The subcommands are `batch`, `run [--workers W]`,
/// `sim [--workers W] [--picks LIST]`, each with `[--closures FILE]`, `format DISK PLAN M N K`, `feed [--workers W] DISK PLAN`,
/// `show [--live] DISK PLAN`, `dump [--live] [--at] DISK PLAN`, `upgrade DISK PLAN`, `copy [--until E] DISK PLAN NEW M N K`, `states DISK PLAN`,
/// `load [--map LIST] [--closures FILE] NEW PLAN M N K`, `stream [--workers W] [--cut-every E] [--most R]
/// [--progress] [--marks [--hold]] [--refuse] [--at] [--room] [--ask] [--status FILE] [--copies FOLDER] DISK PLAN` and `plan [--dot] [--closures FILE] PLAN`. W is 1 to 16, and 1 where it is not given; LIST is `0` where it is not given; M, N and K
/// are numbers of 32 bits. E of `--cut-every` is 1 to 65536, E of `--until` 0 to 2^63 - 1, and R 1 to 2^63 - 1; each is none where it is not
/// given. `--version` or `-V` alone asks for the version, `help faults` for the text on faults, `help closures` for that on
/// closures in text.
/// Refusals: `Words` where these are none of them and clap refuses the words, and `Memory`.
pub fn words<'a>(alloc: Global, given: &'a [String]) -> Result<Job<'a>, WordsError>
    ensures ok { IfOk result (IsAsked (map string_bytes given.entry.now)) }
    ensures workers { IfOk result HasWorkers }
    ensures err { IfErr result (λ e. (e ≡ WordsError.Memory) ⊎ ((e ≡ WordsError.Words) × IsRefused (map string_bytes given.entry.now))) }
    ensures examples { Examples (map string_bytes given.entry.now) result }
    ensures version { asks_version (map string_bytes given.entry.now) ≡ true → result ≡ Ok Job.Version }
    ensures faults { asks_faults (map string_bytes given.entry.now) ≡ true → result ≡ Ok Job.Faults }
    ensures language { asks_language (map string_bytes given.entry.now) ≡ true → result ≡ Ok Job.Language }
{
    match text_asked(given) {
        Some(job) => Ok(job),
        None => parsed(alloc, given),
    }
}

/// The text that these words ask for, of which clap knows nothing. They are looked for first. A version flag of clap's would be
/// taken before any command's words, and the text on faults is no command's help.
fn text_asked<'a>(given: &[String]) -> Option<Job<'a>>
    ensures some { IfSome result (IsTextAsked (map string_bytes given.now)) }
    ensures none { IfNone result ((asks_version (map string_bytes given.now) ≡ false) × (asks_faults (map string_bytes given.now) ≡ false)
        × (asks_language (map string_bytes given.now) ≡ false)) }
{
    if asks_version(given) {
        Some(Job::Version)
    } else if asks_faults(given) {
        Some(Job::Faults)
    } else if asks_language(given) {
        Some(Job::Language)
    } else {
        None
    }
}

/// Whether these words ask for the program's name and version.
fn asks_version(given: &[String]) -> bool
    ensures { result ≡ asks_version (map string_bytes given.now) }
{
    match given {
        [_, word] => word.as_str() == "--version" || word.as_str() == "-V",
        _ => false,
    }
}

/// Whether these words ask for the text on faults.
fn asks_faults(given: &[String]) -> bool
    ensures { result ≡ asks_faults (map string_bytes given.now) }
{
    match given {
        [_, help, about] => help.as_str() == "help" && about.as_str() == "faults",
        _ => false,
    }
}

/// Whether these words ask for the text on closures in text.
fn asks_language(given: &[String]) -> bool
    ensures { result ≡ asks_language (map string_bytes given.now) }
{
    match given {
        [_, help, about] => help.as_str() == "help" && about.as_str() == "closures",
        _ => false,
    }
}

/// What these words ask for, as clap parses them. Refusals: `Words` where clap refuses them, and `Memory`.
fn parsed<'a>(alloc: Global, given: &'a [String]) -> Result<Job<'a>, WordsError>
    ensures ok { IfOk result (IsAsked (map string_bytes given.entry.now)) }
    ensures workers { IfOk result HasWorkers }
    ensures err { IfErr result (λ e. (e ≡ WordsError.Memory) ⊎ ((e ≡ WordsError.Words) × IsNotTaken (map string_bytes given.entry.now))) }
    ensures examples { Examples (map string_bytes given.entry.now) result }
{
    let Ok(command) = command(alloc) else {
        return Err(WordsError::Memory);
    };
    let matches = match command.try_get_matches_from(given) {
        Ok(matches) => matches,
        Err(error) => return asked_instead(alloc, &error),
    };
    match named(&matches) {
        Some(job) => Ok(job),
        None => Err(WordsError::Words),
    }
}

/// The job of the subcommand that a parse met.
fn named<'a>(matches: &ArgMatches<'a>) -> Option<Job<'a>>
    ensures some { IfSome result (IsNamed (subcommand_rows_of matches.now)) }
    ensures none { IfNone result ((job : AnyJob) → IsNamed (subcommand_rows_of matches.now) job → ⊥) }
{
    let (name, found) = matches.subcommand()?;
    job_of(name, found)
}

/// The job of the subcommand of this name, with these matches. The proof compares whole names, with one lemma for each command
/// and none for each pair. So a new name is no case in the other lemmas.
fn job_of<'a>(name: &str, matches: &ArgMatches<'a>) -> Option<Job<'a>>
    ensures some { IfSome result (IsOf name.now (rows_of (found_of matches.now))) }
    ensures none { IfNone result ((job : AnyJob) → IsOf name.now (rows_of (found_of matches.now)) job → ⊥) }
{
    match name {
        "batch" => Some(batch_job(matches)),
        "run" => run_job(matches),
        "sim" => sim_job(matches),
        "format" => format_job(matches),
        "feed" => feed_job(matches),
        "show" => show_job(matches),
        "dump" => dump_job(matches),
        "upgrade" => upgrade_job(matches),
        "copy" => copy_job(matches),
        "states" => states_job(matches),
        "load" => load_job(matches),
        "stream" => stream_job(matches),
        "plan" => plan_job(matches),
        _ => None,
    }
}

/// The batch that the matches of `batch` ask for.
fn batch_job<'a>(matches: &ArgMatches<'a>) -> Job<'a>
    ensures { IsOf (codes "batch") (rows_of (found_of matches.now)) result }
{
    let closures = file_of(matches, "closures");
    Job::Batch { closures }
}

/// The run that the matches of `run` ask for.
fn run_job<'a>(matches: &ArgMatches<'a>) -> Option<Job<'a>>
    ensures some { IfSome result (IsOf (codes "run") (rows_of (found_of matches.now))) }
    ensures none { IfNone result ((job : AnyJob) → IsOf (codes "run") (rows_of (found_of matches.now)) job → ⊥) }
{
    let workers = workers_of(matches)?;
    let closures = file_of(matches, "closures");
    Some(Job::Run { workers, closures })
}

/// The simulation that the matches of `sim` ask for.
fn sim_job<'a>(matches: &ArgMatches<'a>) -> Option<Job<'a>>
    ensures some { IfSome result (IsOf (codes "sim") (rows_of (found_of matches.now))) }
    ensures none { IfNone result ((job : AnyJob) → IsOf (codes "sim") (rows_of (found_of matches.now)) job → ⊥) }
{
    let workers = workers_of(matches)?;
    let picks = word_of(matches, "picks")?;
    let closures = file_of(matches, "closures");
    Some(Job::Sim {
        workers,
        picks,
        closures,
    })
}

/// The formatting that the matches of `format` ask for.
fn format_job<'a>(matches: &ArgMatches<'a>) -> Option<Job<'a>>
    ensures some { IfSome result (IsOf (codes "format") (rows_of (found_of matches.now))) }
    ensures none { IfNone result ((job : AnyJob) → IsOf (codes "format") (rows_of (found_of matches.now)) job → ⊥) }
{
    let (disk, plan) = files_of(matches)?;
    let (m, n, k) = shape_of(matches)?;
    let closures = file_of(matches, "closures");
    Some(Job::Format {
        disk,
        plan,
        m,
        n,
        k,
        closures,
    })
}

/// The feed that the matches of `feed` ask for.
fn feed_job<'a>(matches: &ArgMatches<'a>) -> Option<Job<'a>>
    ensures some { IfSome result (IsOf (codes "feed") (rows_of (found_of matches.now))) }
    ensures none { IfNone result ((job : AnyJob) → IsOf (codes "feed") (rows_of (found_of matches.now)) job → ⊥) }
{
    let (disk, plan) = files_of(matches)?;
    let workers = workers_of(matches)?;
    Some(Job::Feed {
        disk,
        plan,
        workers,
    })
}

/// The look at a disk that the matches of `show` ask for.
fn show_job<'a>(matches: &ArgMatches<'a>) -> Option<Job<'a>>
    ensures some { IfSome result (IsOf (codes "show") (rows_of (found_of matches.now))) }
    ensures none { IfNone result ((job : AnyJob) → IsOf (codes "show") (rows_of (found_of matches.now)) job → ⊥) }
{
    let (disk, plan) = files_of(matches)?;
    let live = flag_of(matches, "live")?;
    Some(Job::Show { disk, plan, live })
}

/// The dump of a disk that the matches of `dump` ask for.
fn dump_job<'a>(matches: &ArgMatches<'a>) -> Option<Job<'a>>
    ensures some { IfSome result (IsOf (codes "dump") (rows_of (found_of matches.now))) }
    ensures none { IfNone result ((job : AnyJob) → IsOf (codes "dump") (rows_of (found_of matches.now)) job → ⊥) }
{
    let (disk, plan) = files_of(matches)?;
    let live = flag_of(matches, "live")?;
    let at = flag_of(matches, "at")?;
    Some(Job::Dump {
        disk,
        plan,
        live,
        at,
    })
}

/// The upgrade of a disk that the matches of `upgrade` ask for.
fn upgrade_job<'a>(matches: &ArgMatches<'a>) -> Option<Job<'a>>
    ensures some { IfSome result (IsOf (codes "upgrade") (rows_of (found_of matches.now))) }
    ensures none { IfNone result ((job : AnyJob) → IsOf (codes "upgrade") (rows_of (found_of matches.now)) job → ⊥) }
{
    let (disk, plan) = files_of(matches)?;
    Some(Job::Upgrade { disk, plan })
}

/// The copy that the matches of `copy` ask for.
fn copy_job<'a>(matches: &ArgMatches<'a>) -> Option<Job<'a>>
    ensures some { IfSome result (IsOf (codes "copy") (rows_of (found_of matches.now))) }
    ensures none { IfNone result ((job : AnyJob) → IsOf (codes "copy") (rows_of (found_of matches.now)) job → ⊥) }
{
    let (disk, plan) = files_of(matches)?;
    let new = word_of(matches, "new")?;
    let (m, n, k) = shape_of(matches)?;
    let until = option_of(matches, "until", 0, GREATEST)?;
    Some(Job::Copy {
        disk,
        plan,
        new,
        m,
        n,
        k,
        until,
    })
}

/// The checkpoint as text that the matches of `states` ask for.
fn states_job<'a>(matches: &ArgMatches<'a>) -> Option<Job<'a>>
    ensures some { IfSome result (IsOf (codes "states") (rows_of (found_of matches.now))) }
    ensures none { IfNone result ((job : AnyJob) → IsOf (codes "states") (rows_of (found_of matches.now)) job → ⊥) }
{
    let (disk, plan) = files_of(matches)?;
    Some(Job::States { disk, plan })
}

/// The disk made of a text that the matches of `load` ask for.
fn load_job<'a>(matches: &ArgMatches<'a>) -> Option<Job<'a>>
    ensures some { IfSome result (IsOf (codes "load") (rows_of (found_of matches.now))) }
    ensures none { IfNone result ((job : AnyJob) → IsOf (codes "load") (rows_of (found_of matches.now)) job → ⊥) }
{
    let new = word_of(matches, "new")?;
    let plan = word_of(matches, "plan")?;
    let (m, n, k) = shape_of(matches)?;
    let map = file_of(matches, "map");
    let closures = file_of(matches, "closures");
    Some(Job::Load {
        new,
        plan,
        m,
        n,
        k,
        map,
        closures,
    })
}

/// The feed, as its lines come, that the matches of `stream` ask for. Outputs are held only where epochs are marked.
fn stream_job<'a>(matches: &ArgMatches<'a>) -> Option<Job<'a>>
    ensures some { IfSome result (IsOf (codes "stream") (rows_of (found_of matches.now))) }
    ensures none { IfNone result ((job : AnyJob) → IsOf (codes "stream") (rows_of (found_of matches.now)) job → ⊥) }
{
    let (disk, plan) = files_of(matches)?;
    let workers = workers_of(matches)?;
    let cut_every = cut_every_of(matches)?;
    let most = option_of(matches, "most", 1, GREATEST)?;
    let progress = flag_of(matches, "progress")?;
    let marks = flag_of(matches, "marks")?;
    let refuse = flag_of(matches, "refuse")?;
    let at = flag_of(matches, "at")?;
    let hold = flag_of(matches, "hold")?;
    let room = flag_of(matches, "room")?;
    let ask = flag_of(matches, "ask")?;
    let status = file_of(matches, "status");
    let copies = file_of(matches, "copies");
    if !may_hold(marks, hold) {
        return None;
    }
    Some(Job::Stream {
        disk,
        plan,
        workers,
        cut_every,
        most,
        progress,
        marks,
        refuse,
        at,
        hold,
        room,
        ask,
        status,
        copies,
    })
}

/// Whether outputs may be held: only where epochs are marked.
fn may_hold(marks: bool, hold: bool) -> bool
    ensures { result ≡ may_hold marks hold }
{
    marks || !hold
}

/// The look at a plan that the matches of `plan` ask for.
fn plan_job<'a>(matches: &ArgMatches<'a>) -> Option<Job<'a>>
    ensures some { IfSome result (IsOf (codes "plan") (rows_of (found_of matches.now))) }
    ensures none { IfNone result ((job : AnyJob) → IsOf (codes "plan") (rows_of (found_of matches.now)) job → ⊥) }
{
    let plan = word_of(matches, "plan")?;
    let dot = flag_of(matches, "dot")?;
    let closures = file_of(matches, "closures");
    Some(Job::Plan {
        plan,
        dot,
        closures,
    })
}

/// The files DISK and PLAN.
fn files_of<'a>(matches: &ArgMatches<'a>) -> Option<(&'a str, &'a str)>
    ensures some { IfSome result (λ files. HasFiles (rows_of (found_of matches.now)) files.0 files.1) }
    ensures none { IfNone result ((disk plan : Bor Text) → HasFiles (rows_of (found_of matches.now)) disk plan → ⊥) }
{
    let disk = word_of(matches, "disk")?;
    let plan = word_of(matches, "plan")?;
    Some((disk, plan))
}

/// The numbers M, N and K.
fn shape_of(matches: &ArgMatches<'_>) -> Option<(u32, u32, u32)>
    ensures some { IfSome result (λ shape. HasShape (rows_of (found_of matches.now)) shape.0 shape.1 shape.2) }
    ensures none { IfNone result ((m n k : ℕ) → HasShape (rows_of (found_of matches.now)) m n k → ⊥) }
{
    let m = number_of(matches, "m")?;
    let n = number_of(matches, "n")?;
    let k = number_of(matches, "k")?;
    Some((m, n, k))
}

/// The word of an argument.
fn word_of<'a>(matches: &ArgMatches<'a>, id: &str) -> Option<&'a str>
    ensures some { IfSome result (λ word. first_of id.now (rows_of (found_of matches.now)) ≡ Some word.now) }
    ensures none { IfNone result (first_of id.now (rows_of (found_of matches.now)) ≡ None) }
{
    matches.get_str(id)
}

/// The name of a file that an option has; none, where it is left out.
fn file_of<'a>(matches: &ArgMatches<'a>, id: &str) -> Option<&'a str>
    ensures { IsFile id.now (rows_of (found_of matches.now)) result }
{
    matches.get_str(id)
}

/// The number of an argument. Clap has refused any that `u32` does not hold.
fn number_of(matches: &ArgMatches<'_>, id: &str) -> Option<u32>
    ensures some { IfSome result (IsNumber id.now 0 4294967295 (rows_of (found_of matches.now))) }
    ensures none { IfNone result ((number : ℕ) → IsNumber id.now 0 4294967295 (rows_of (found_of matches.now)) number → ⊥) }
{
    matches.get_one::<u32>(id)
}

/// The number of shards that matches have. Clap has refused any number that is not 1 to 16.
fn workers_of(matches: &ArgMatches<'_>) -> Option<u8>
    ensures some { IfSome result (IsWorkers (rows_of (found_of matches.now))) }
    ensures none { IfNone result ((workers : ℕ) → IsWorkers (rows_of (found_of matches.now)) workers → ⊥) }
{
    let workers = matches.get_one::<u8>("workers")?;
    if is_shard_count(workers) {
        Some(workers)
    } else {
        None
    }
}

/// The number of epochs after which matches ask for a cut, where they have one. Clap has refused any that is not 1 to 65536.
fn cut_every_of(matches: &ArgMatches<'_>) -> Option<Option<u32>>
    ensures some { IfSome result (IsCutEvery (rows_of (found_of matches.now))) }
    ensures none { IfNone result ((every : Option ℕ) → IsCutEvery (rows_of (found_of matches.now)) every → ⊥) }
{
    match matches.try_get_one::<u32>("cut-every") {
        Ok(None) => Some(None),
        Ok(Some(every)) if is_cut_distance(every) => Some(Some(every)),
        _ => None,
    }
}

/// The number of an option, where matches have it. Clap has refused any that is not `least` to `most`.
fn option_of(matches: &ArgMatches<'_>, id: &str, least: u64, most: u64) -> Option<Option<u64>>
    ensures some { IfSome result (IsOption id.now least most (rows_of (found_of matches.now))) }
    ensures none { IfNone result ((number : Option ℕ) → IsOption id.now least most (rows_of (found_of matches.now)) number → ⊥) }
{
    match matches.try_get_one::<u64>(id) {
        Ok(None) => Some(None),
        Ok(Some(number)) if lies_within(number, least, most) => Some(Some(number)),
        _ => None,
    }
}

/// Whether a flag is given. Clap writes a value for one that is not, too.
fn flag_of(matches: &ArgMatches<'_>, id: &str) -> Option<bool>
    ensures some { IfSome result (IsFlag id.now (rows_of (found_of matches.now))) }
    ensures none { IfNone result ((is_given : Bool) → IsFlag id.now (rows_of (found_of matches.now)) is_given → ⊥) }
{
    matches.get_one::<bool>(id)
}

/// Whether cuts may be so many epochs apart.
fn is_cut_distance(epochs: u32) -> bool
    ensures { IsTrue result ↔ ((1 ≤ epochs) × (epochs ≤ 65536)) }
{
    1 <= epochs && epochs <= 65_536
}

/// Whether a number is one of `least` to `most`.
fn lies_within(number: u64, least: u64, most: u64) -> bool
    ensures { IsTrue result ↔ ((least ≤ number) × (number ≤ most)) }
{
    least <= number && number <= most
}

/// Whether a hall may have so many shards.
fn is_shard_count(workers: u8) -> bool
    ensures { IsTrue result ↔ ((1 ≤ workers) × (workers ≤ 16)) }
{
    1 <= workers && workers <= 16
}

/// Help is answered by its text.
fn asked_instead<'a>(alloc: Global, error: &Error) -> Result<Job<'a>, WordsError>
    ensures ok { IfOk result (λ job. IsHelp job × (kind_of error.now ≡ ErrorKind.DisplayHelp)) }
    ensures err { IfErr result (λ e. (e ≡ WordsError.Memory) ⊎ ((e ≡ WordsError.Words)
        × (kind_of error.now ≢ ErrorKind.DisplayHelp) × (kind_of error.now ≢ ErrorKind.OutOfMemory))) }
{
    match error.kind() {
        ErrorKind::DisplayHelp => match error.to_string(alloc) {
            Ok(text) => Ok(Job::Help(text)),
            Err(_) => Err(WordsError::Memory),
        },
        ErrorKind::OutOfMemory => Err(WordsError::Memory),
        _ => Err(WordsError::Words),
    }
}
