//! Laws of lives. Each is the contract of a function that does nothing, or calls the laws that it follows from.
ghost use Rattle.std.specs.Prelude.{◌≡◌, ◌++◌, List, ℕ, Option};
ghost use Rattle.td_plan.specs.Lines.{Line};
ghost use Rattle.td_gate.specs.CrashSafe.{CrashSafe, Unchanged};
ghost use Rattle.td_head.specs.Layout.{Sizes};
ghost use Rattle.td_store.specs.standing.Standing.{Standing, nothing_told};
ghost use Rattle.td_store.specs.standing.Told.{Told};
ghost use Rattle.td_store.specs.standing.Tells.{Keeps, first_head};
ghost use Rattle.td_store.specs.standing.Read.{Stood};
ghost use Rattle.td_watch.specs.View.{View as AnyView};
ghost use Rattle.td_keeper.specs.declared.command.Command.{Command as AnyCommand};
ghost use Rattle.td_keeper.specs.declared.command.Reply.{Reply as AnyReply};
ghost use Rattle.td_keeper.specs.Keeping.{Keeping};
ghost use Rattle.td_keeper.specs.Driven.{Driven};
ghost use Rattle.td_theorem.specs.Life.{Obeyed, TellsAs};
ghost use Rattle.td_theorem.specs.Holds.{TheTheorem};

use td_calls::Law;
use td_disk::Disk;
use td_keeper::laws;

/// THE THEOREM. Format a disk. Let any number of keepers stand on it, one after another, each told anything beside any workers, each stopped
/// anywhere, in the middle of a write too. What is then on the disk tells a history. It is made of what was submitted, in order. Every
/// batch that was acknowledged stands at its place there. Every output that went out is that history's. No request number stands
/// twice. And an engine that is opened there comes to the rest of the batch meaning of that history, in whatever order its tasks
/// are taken and given.
pub fn the_theorem<D: Disk, L: Law>()
    ensures { TheTheorem D.view L.answers }
{
    laws::others_rest::<D, L>();
    laws::driven_acknowledges::<D, L>();
    laws::driven_advances::<D, L>();
    laws::driven_hands_on::<D, L>();
    td_store::standing::laws::advance_stands::<L>();
    td_store::standing::laws::standings_advance::<L>();
    td_store::standing::laws::told_in_parts();
    td_journal::laws::numbers();
    td_slots::laws::states_are_in_order();
    td_batch::laws::run_joins::<L>();
    td_machine::laws::plays_join::<L>();
    td_machine::laws::confluence::<L>();
    td_machine::laws::never_stuck::<L>();
}

/// A LIFE GOES ON where a disk has just the bytes that were left; and where it tells the standing that they tell, whatever a crash leaves
/// of it, so on a copy of the disk, or on the disk with a raised head. A life begins where a disk was formatted. And a keeper that is
/// found on its own disk, as a formatted one is, found it as it was.
pub fn lives_go_on<D: Disk>()
    ensures same { (plan : List Line) (image : List ℕ) (disk : D) → ((c : List ℕ) → (D.view disk).state.images c → c ≡ image)
        → TellsAs plan image (D.view disk).state }
    ensures told { (plan : List Line) (image : List ℕ) (disk : D) (s : Standing) → Told plan image (Stood s)
        → ((c : List ℕ) → (D.view disk).state.images c → Told plan c (Stood s)) → TellsAs plan image (D.view disk).state }
    ensures begins { (plan : List Line) (sizes : Sizes) (image : List ℕ) (disk : D) → Keeps plan (first_head sizes) 0 nothing_told (D.view disk).state
        → (D.view disk).state.images image → TellsAs plan image (D.view disk).state }
    ensures own { (disk : D) → (D.view disk).lawful → CrashSafe Unchanged (D.view disk).state (D.view disk).state }
{
    td_store::standing::laws::told_in_parts();
}

/// WATCHES COME AND GO between commands. Commands that a keeper was given at once are obeyed; and so are some, and then others, where in
/// between another watch was attached, or none.
pub fn watches_come_and_go<D: Disk, L: Law>()
    ensures driven { (commands : List AnyCommand) (replies : List AnyReply) (old new : Keeping D)
        → Driven D.view L.answers commands replies old new → Obeyed D.view L.answers commands replies old new }
    ensures attached { (watch : Option AnyView) (commands : List AnyCommand) (replies : List AnyReply) (more : List AnyCommand) (others : List AnyReply) (old mid new : Keeping D)
        → Obeyed D.view L.answers commands replies old mid
        → Obeyed D.view L.answers more others (record mid { watch = watch }) new
        → Obeyed D.view L.answers (commands ++ more) (replies ++ others) old new }
{}
