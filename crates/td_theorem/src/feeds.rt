//! Feeds and streams as stints of a life. Each law is the contract of a function that does nothing.
ghost use Rattle.std.specs.Prelude.{◌≡◌, ℕ, Bool, List, [], Option, Result as AnyResult};
ghost use Rattle.td_plan.specs.Lines.{Line};
ghost use Rattle.td_store.specs.standing.Advanced.{HeldWhere};
ghost use Rattle.td_keeper.specs.declared.command.Command.{Command as AnyCommand};
ghost use Rattle.td_keeper.specs.declared.command.Reply.{Reply as AnyReply};
ghost use Rattle.td_keeper.specs.Keeping.{Keeping};
ghost use Rattle.td_keeper.specs.Driven.{Driven};
ghost use Rattle.td_console.specs.declared.faults.Fault.{Fault as AnyFault};
ghost use Rattle.td_feed.specs.Said.{Wanted, SaysFrom};
ghost use Rattle.td_theorem.specs.Life.{IsStint, stint_of};
ghost use Rattle.td_theorem.specs.Feeds.{found_by};

use td_calls::Law;
use td_disk::Disk;

/// A FEED IS A STINT, and so is a stream, whatever it answered: the commands that its keeper was told, with their replies, and what a crash
/// leaves after its answer.
pub fn feeds_are_stints<D: Disk, L: Law>()
    ensures { (marks : Bool) (result : AnyResult (Unit {0}) AnyFault) (plan : List Line) (alone : Bool) (disk left : D) (before after : Option (List ℕ)) (wanted : Wanted)
        (from : SaysFrom D.view L.answers marks result plan alone disk left before after wanted) → (D.view disk).lawful
        → (commands : List AnyCommand) (replies : List AnyReply) → Driven D.view L.answers commands replies (found_by from) from.ended
        → (image : List ℕ) → (D.view left).state.since (D.view left).state.moment image
        → IsStint D.view L.answers plan (stint_of disk from.keeper commands replies from.ended [] [] from.ended image) }
{}

/// And so is one that was stopped before its answer, in the middle of a write too: a stint whose replies nobody may have seen. The first
/// of them count as seen where the disk held by then what the keeper stood for, as that of each keeper does (`each_disk_holds`).
pub fn stopped_feeds_are_stints<D: Disk, L: Law>()
    ensures unseen { (marks : Bool) (result : AnyResult (Unit {0}) AnyFault) (plan : List Line) (alone : Bool) (disk left : D) (before after : Option (List ℕ)) (wanted : Wanted)
        (from : SaysFrom D.view L.answers marks result plan alone disk left before after wanted) → (D.view disk).lawful
        → (commands : List AnyCommand) (replies : List AnyReply) → Driven D.view L.answers commands replies (found_by from) from.ended
        → (image : List ℕ) → (D.view left).state.since (D.view from.keeper.device).state.moment image
        → IsStint D.view L.answers plan (stint_of disk from.keeper [] [] from.keeper commands replies from.ended image) }
    ensures seen { (marks : Bool) (result : AnyResult (Unit {0}) AnyFault) (plan : List Line) (alone : Bool) (disk left : D) (before after : Option (List ℕ)) (wanted : Wanted)
        (from : SaysFrom D.view L.answers marks result plan alone disk left before after wanted) → (D.view disk).lawful
        → (commands : List AnyCommand) (replies : List AnyReply) (stood : Keeping D) → Driven D.view L.answers commands replies (found_by from) stood
        → HeldWhere stood.broken L.answers stood.plan stood.head stood.side stood.standing (D.view stood.device).state
        → (more : List AnyCommand) (unseen : List AnyReply) → Driven D.view L.answers more unseen stood from.ended
        → (image : List ℕ) → (D.view left).state.since (D.view stood.device).state.moment image
        → IsStint D.view L.answers plan (stint_of disk from.keeper commands replies stood more unseen from.ended image) }
{}
