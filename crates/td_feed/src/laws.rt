//! Laws of the definitions. Each is the contract of a function that does nothing.
ghost use Rattle.std.specs.Prelude.{◌≡◌, ◌++◌, ◌<◌, ◌≤◌, List, [], length, ℕ, Bool, true, false, Option, None, Result as AnyResult, Ok};
ghost use Rattle.td_plan.specs.Lines.{Line};
ghost use Rattle.td_journal.specs.declared.payload.Submitted.{Submitted as AnySubmitted};
ghost use Rattle.td_console.specs.declared.faults.Fault.{Fault as AnyFault};
ghost use Rattle.td_keeper.specs.declared.command.Command.{Command as AnyCommand};
ghost use Rattle.td_keeper.specs.declared.command.Reply.{Reply as AnyReply};
ghost use Rattle.td_keeper.specs.Answering.{AllOfHistory};
ghost use Rattle.td_keeper.specs.Driven.{submitted_by as submitted_in, Driven};
ghost use Rattle.td_feed.specs.Fed.{EachTellsHistory, TellsOnward};
ghost use Rattle.td_feed.specs.Said.{Wanted, SaysFrom, TellsAcknowledged};

use td_calls::Law;
use td_disk::Disk;

/// EACH EPOCH THAT IS ACKNOWLEDGED IS TOLD. Whatever a feed or a stream came to, and whatever a crash leaves of its disk then, that tells
/// each epoch for which an `ack` line was written, and each that the keeper acknowledged beside.
pub fn acknowledged_is_told<D: Disk, L: Law>()
    ensures { (marks : Bool) (result : AnyResult (Unit {0}) AnyFault) (plan : List Line) (alone : Bool) (disk left : D) (before after : Option (List ℕ)) (wanted : Wanted)
        (from : SaysFrom D.view L.answers marks result plan alone disk left before after wanted) → (D.view disk).lawful
        → (commands : List AnyCommand) (replies : List AnyReply)
        → Driven D.view L.answers commands replies (record from.keeper { watch = from.watch }) from.ended
        → (c : List ℕ) → (D.view left).state.images c → TellsAcknowledged plan replies c }
{
    td_store::standing::laws::told_in_parts();
    td_keeper::laws::acknowledged_is_counted::<D, L>();
}

/// AT EACH MOMENT of a feed or a stream, in the middle of a write too, and not at its answer alone: of a disk that stood for a history, what
/// a crash leaves tells that history and a beginning of what the keeper's commands submitted.
pub fn moments_are_told<D: Disk, L: Law>()
    ensures { (marks : Bool) (result : AnyResult (Unit {0}) AnyFault) (plan : List Line) (alone : Bool) (disk left : D) (before after : Option (List ℕ)) (wanted : Wanted)
        (from : SaysFrom D.view L.answers marks result plan alone disk left before after wanted) → (D.view disk).lawful
        → (commands : List AnyCommand) (replies : List AnyReply)
        → Driven D.view L.answers commands replies (record from.keeper { watch = from.watch }) from.ended
        → (history : List AnySubmitted) → EachTellsHistory L.answers plan history (D.view disk).state
        → (c : List ℕ) → (D.view left).state.since (D.view disk).state.moment c → TellsOnward L.answers plan history (submitted_in commands replies) c }
{
    td_store::standing::laws::told_in_parts();
    td_store::standing::laws::advance_stands::<L>();
    td_keeper::laws::driven_advances::<D, L>();
}

/// EACH ANSWER IS MEANT. Of a disk that stood for a history, each answer of a stream is of that history and what was acknowledged before the
/// question: of the last epoch of these, and by their states in the batch meaning.
pub fn answers_are_meant<D: Disk, L: Law>()
    ensures { (marks : Bool) (result : AnyResult (Unit {0}) AnyFault) (plan : List Line) (alone : Bool) (disk left : D) (before after : Option (List ℕ)) (wanted : Wanted)
        (from : SaysFrom D.view L.answers marks result plan alone disk left before after wanted) → (D.view disk).lawful
        → (commands : List AnyCommand) (replies : List AnyReply)
        → Driven D.view L.answers commands replies (record from.keeper { watch = from.watch }) from.ended
        → (history : List AnySubmitted) → EachTellsHistory L.answers plan history (D.view disk).state
        → AllOfHistory L.answers plan history commands replies }
{
    td_store::standing::laws::told_in_parts();
    td_keeper::laws::driven_answers::<D, L>();
}
