//! Laws of keepers. Each is the contract of a function that does nothing.
ghost use Rattle.std.specs.Prelude.{◌≡◌, ◌≤◌, false, List, ℕ, All, Contains};
ghost use Rattle.td_store.specs.standing.Standing.{Standing, last_epoch, last_request};
ghost use Rattle.td_store.specs.standing.Told.{Told};
ghost use Rattle.td_store.specs.standing.Read.{Stood};
ghost use Rattle.td_journal.specs.declared.payload.Submitted.{Submitted as AnySubmitted};
ghost use Rattle.td_store.specs.standing.Stops.{Stands};
ghost use Rattle.td_store.specs.standing.Advanced.{HeldWhere, states_by};
ghost use Rattle.td_keeper.specs.Keeping.{Keeping, IsKeeping, EachKeepsTo, KeepsSince, KeepsToWhere};
ghost use Rattle.td_keeper.specs.Calls.{HoldsStanding};
ghost use Rattle.td_keeper.specs.declared.command.Command.{Command as AnyCommand};
ghost use Rattle.td_keeper.specs.declared.command.Reply.{Reply as AnyReply};
ghost use Rattle.td_keeper.specs.Acknowledged.{acknowledged_by, outs_of, HandsOutUpTo, Acknowledges, TellsWork};
ghost use Rattle.td_keeper.specs.Answering.{AllOfHistory};
ghost use Rattle.td_keeper.specs.Driven.{may_write, submitted_by, handed_out, HandsOn, Advances, AcknowledgesUpTo, Obeys, Driven, IsTold, Publishes, Rests};

use crate::keeper::Keeper;
use crate::obey::Obey;
use td_calls::Law;
use td_disk::Disk;
use td_store::standing::laws;

/// Each keeper that anybody can hold keeps its memory right: what it stands for may stand on its disk, and its base is one of
/// its epochs, with the batch meaning's states.
pub fn each_is_kept<D: Disk, L: Law>(keeper: &Keeper<D, L>)
    ensures { IsKeeping keeper.now L.answers }
{
    // Read for its contract alone.
    let _collected = keeper.collected;
}

/// So does each that is at work.
pub fn each_at_work_is_kept<D: Disk, L: Law, R, E: Obey<D, L, R>>(engine: &E)
    ensures { IsKeeping (E.keeping engine.now) L.answers }
{
    each_is_kept(engine.keeper());
}

/// And a lawful disk of each keeper holds what it stands for, image by image; after a fault of the device in a call that writes,
/// an advance of it that holds all of its epochs.
pub fn each_disk_holds<D: Disk, L: Law>(keeper: &Keeper<D, L>)
    ensures { HoldsStanding D.view L.answers keeper.now }
{
    // Read for its contract alone.
    let _collected = keeper.collected;
}

/// After a fault of the device in a call that writes, nothing is kept beyond a keeper's base.
fn each_stops_short<D: Disk, L: Law>(keeper: &Keeper<D, L>)
    ensures { (D.view keeper.now.device).lawful
        → KeepsToWhere keeper.now.broken keeper.now.plan keeper.now.base (D.view keeper.now.device).state }
{
    // Read for its contract alone.
    let _collected = keeper.collected;
}

/// Whatever a crash leaves of a keeper's lawful disk, nothing is kept beyond the keeper's base, which is the last cut that it took.
pub fn each_keeps_to_its_base<D: Disk, L: Law>(keeper: &Keeper<D, L>)
    ensures { (D.view keeper.now.device).lawful → EachKeepsTo keeper.now.plan keeper.now.base (D.view keeper.now.device).state }
{
    laws::told_in_parts();
    each_is_kept(keeper);
    each_disk_holds(keeper);
    each_stops_short(keeper);
}

/// Whatever a crash leaves of a keeper's lawful disk tells a request number at least as great as the keeper's last one, also
/// after a fault of the device. So a request that was answered `New` or `Already` is `Already` to each keeper that recovers it.
pub fn each_has_requests<D: Disk, L: Law>(keeper: &Keeper<D, L>)
    ensures { (D.view keeper.now.device).lawful → (c : List ℕ) → (D.view keeper.now.device).state.images c
        → (s : Standing) × Told keeper.now.plan c (Stood s) × (last_request keeper.now.standing ≤ last_request s) }
{
    laws::told_in_parts();
    laws::last_request_never_falls::<L>();
    each_disk_holds(keeper);
}

/// ONE COMMAND AND ITS REPLY, with all that is known of the two (`IsTold`), of a keeper before and after it. So what holds of the commands of
/// `Keeper::drive` holds of the calls of `Obey`, one after another.
pub fn each_is_told<D: Disk, L: Law>()
    ensures { (command : AnyCommand) (reply : AnyReply) (old new : Keeping D) → IsKeeping old L.answers → HoldsStanding D.view L.answers old → IsKeeping new L.answers
        → Obeys D.view L.answers command reply old new
        → IsTold D.view L.answers command reply old new }
{
    laws::told_in_parts();
    laws::standings_advance::<L>();
    laws::advances_join::<L>();
}

/// A command that does not write leaves the disk, and what a keeper stands for, as it was, whatever the reply is.
pub fn others_rest<D: Disk, L: Law>()
    ensures { (command : AnyCommand) (reply : AnyReply) (old new : Keeping D) → may_write command ≡ false
        → Obeys D.view L.answers command reply old new → Rests old new }
{}

/// What commands acknowledge is counted by the keeper that they leave, whatever else they come to: so a lawful disk of it holds each of
/// these epochs, image by image, also after a fault of the device (`each_disk_holds`).
pub fn acknowledged_is_counted<D: Disk, L: Law>()
    ensures { (commands : List AnyCommand) (replies : List AnyReply) (old new : Keeping D) → IsKeeping old L.answers → (D.view old.device).lawful
        → Driven D.view L.answers commands replies old new
        → (new.plan ≡ old.plan) × All (AcknowledgesUpTo (last_epoch new.standing)) replies }
{
    laws::advances_join::<L>();
}

/// What commands hand out is what the batch meaning has, each epoch's once: the outputs among the replies, followed by the queue
/// left, are the queue found, followed by those of the epochs collected since.
pub fn driven_hands_on<D: Disk, L: Law>()
    ensures { (commands : List AnyCommand) (replies : List AnyReply) (old new : Keeping D) → IsKeeping old L.answers
        → Driven D.view L.answers commands replies old new
        → HandsOn L.answers old new (submitted_by commands replies) (handed_out replies) }
{
    laws::advances_join::<L>();
    td_batch::laws::run_joins::<L>();
}

/// Each image that a crash may leave after commands was one before them, or it tells an advance of what the keeper stood for with
/// all that they submitted, which holds every epoch of it.
pub fn driven_advances<D: Disk, L: Law>()
    ensures { (commands : List AnyCommand) (replies : List AnyReply) (old new : Keeping D) → IsKeeping old L.answers
        → (D.view old.device).lawful → old.broken ≡ false
        → Driven D.view L.answers commands replies old new
        → Advances D.view L.answers old new (submitted_by commands replies) }
{
    laws::advances_join::<L>();
}

/// NOTHING IS KEPT BEYOND A KEEPER'S BASE, at each moment of commands, in the middle of a write too. The base never falls; and each image that a
/// crash leaves at such a moment was one before the commands, or the checkpoint that it tells is of no epoch beyond the base.
pub fn driven_keeps_to_its_base<D: Disk, L: Law>()
    ensures { (commands : List AnyCommand) (replies : List AnyReply) (old new : Keeping D) → (D.view old.device).lawful
        → Driven D.view L.answers commands replies old new
        → (old.base ≤ new.base) × KeepsSince old.plan new.base (D.view old.device).state (D.view new.device).state }
{
    td_machine::laws::reached::<L>();
}

/// A WATCH STAYS ATTACHED through commands; and what its writer published last is how far the keeper has come, where it was so before them.
pub fn driven_publishes<D: Disk, L: Law>()
    ensures { (commands : List AnyCommand) (replies : List AnyReply) (old new : Keeping D) → Driven D.view L.answers commands replies old new → Publishes old new }
{}

/// WHAT IS ACKNOWLEDGED IS THERE, batch by batch. What replies acknowledge are the epochs that follow the keeper's last, in the order
/// of the commands; a keeper that stood for a history stands for that and these, each at the place that its reply told.
pub fn driven_acknowledges<D: Disk, L: Law>()
    ensures { (commands : List AnyCommand) (replies : List AnyReply) (old new : Keeping D) → IsKeeping old L.answers
        → Driven D.view L.answers commands replies old new
        → Acknowledges L.answers commands replies old new }
{
    laws::advance_stands::<L>();
    laws::standings_advance::<L>();
    laws::advances_join::<L>();
}

/// WHAT IS ANSWERED IS MEANT. Each answer among the replies to commands is of a history, where the keeper stood for one, and what was
/// acknowledged before it: of the last epoch of these, and by their states in the batch meaning.
pub fn driven_answers<D: Disk, L: Law>()
    ensures { (commands : List AnyCommand) (replies : List AnyReply) (old new : Keeping D) (history : List AnySubmitted) → IsKeeping old L.answers
        → Driven D.view L.answers commands replies old new
        → Stands (states_by L.answers old.plan) old.standing history
        → AllOfHistory L.answers old.plan history commands replies }
{
    td_batch::laws::run_joins::<L>();
    driven_acknowledges::<D, L>();
}

/// What is handed out is counted: no output that goes out, and none that is left in the queue, is of an epoch beyond the last of what
/// the keeper then stands for, where none in the queue found was. So each epoch whose outputs went out is told, as one that was
/// acknowledged is.
pub fn handed_is_counted<D: Disk, L: Law>()
    ensures { (commands : List AnyCommand) (replies : List AnyReply) (old new : Keeping D) → IsKeeping old L.answers
        → Driven D.view L.answers commands replies old new
        → All (λ out. out.epoch ≤ last_epoch old.standing) old.queue
        → All (HandsOutUpTo (last_epoch new.standing)) replies × All (λ out. out.epoch ≤ last_epoch new.standing) new.queue }
{
    driven_acknowledges::<D, L>();
    driven_hands_on::<D, L>();
}

/// WHAT WAS ACKNOWLEDGED AND WHAT WAS HANDED OUT IS TOLD. Of a disk that holds what the keeper then stands for, as each keeper's lawful
/// disk does (`each_disk_holds`), whatever a crash leaves tells a history: each batch that was acknowledged is the epoch of its
/// reply there, and each output that was handed out is that history's, where those in the queue found were.
pub fn acknowledged_is_told<D: Disk, L: Law>()
    ensures { (commands : List AnyCommand) (replies : List AnyReply) (old new : Keeping D) (history : List AnySubmitted) → IsKeeping old L.answers
        → Driven D.view L.answers commands replies old new
        → Stands (states_by L.answers old.plan) old.standing history
        → All (Contains (outs_of L.answers old.plan history)) old.queue
        → HeldWhere new.broken L.answers new.plan new.head new.side new.standing (D.view new.device).state
        → (c : List ℕ) → (D.view new.device).state.images c
        → TellsWork L.answers old.plan (acknowledged_by commands replies) (handed_out replies) c }
{
    laws::told_in_parts();
    laws::advance_stands::<L>();
    laws::standings_advance::<L>();
    laws::advances_join::<L>();
    td_batch::laws::run_joins::<L>();
}
