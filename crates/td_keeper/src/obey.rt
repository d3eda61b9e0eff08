//! A keeper at work: with a hall of its own, or beside the workers of a pool.
ghost use Rattle.std.specs.Prelude.{◌≡◌, ◌+◌, Bool, true, None, IfOk, OnOk};
ghost use Rattle.td_machine.specs.State.{HallState};
ghost use Rattle.td_machine.specs.Active.{unpassed};
ghost use Rattle.td_disk.specs.Calls.{KeepsDevice};
ghost use Rattle.td_store.specs.standing.Standing.{last_epoch};
ghost use Rattle.td_store.specs.declared.standing.error.KeeperError.TheVariants.{Device};
ghost use Rattle.td_keeper.specs.declared.submit_all.GroupError.TheVariants.{Keeper as ByKeeper};
ghost use Rattle.td_keeper.specs.Calls.{outcome};
ghost use Rattle.td_keeper.specs.Keeping.{Keeping, since_base};
ghost use Rattle.td_keeper.specs.Halls.{IsDone, place_between};
ghost use Rattle.td_keeper.specs.declared.command.Command.TheVariants.{Submit, SubmitAs, SubmitAll, WriteCut, CloseFree};
ghost use Rattle.td_keeper.specs.declared.command.Reply.TheVariants.{Out};
ghost use Rattle.td_keeper.specs.Driven.{Releases, Settles, Collects, HandsOut, Cuts, Asks, Obeys, submitted, submitted_as, submitted_all, released, settled, collected, cut, answered, written, closed};

use crate::keeper::Keeper;
use crate::receipt::Receipt;
use crate::submit_all::{Group, GroupError};
use td_calls::Law;
use td_disk::Disk;
use td_questions::{Entries, Wanted};
use td_stamp::{Batch, EpochOut};
use td_store::standing::KeeperError;

/// A keeper, and a hall that works on its epochs: one of its own (`Engine`), or that of a pool, which others lend it. Each call does what
/// the command of its name does (`Command`), and its answer is the reply.
pub trait Obey<D: Disk, L: Law, R> {
    /// What contracts see of the keeper.
    ghost keeping: { Self → Keeping D };

    /// Whether the hall is its own; and that hall, where it is.
    ghost alone: { Bool };

    ghost hall: { Self → HallState };

    /// The keeper, to read.
    fn keeper(&self) -> &Keeper<D, L>
        ensures { result.now ≡ keeping self.now };

    /// Allows the tasks of so many epochs more to be run.
    fn allow(&mut self, epochs: u64)
        ensures { keeping self.new ≡ keeping self.old };

    /// Puts a batch on the journal, as `Keeper::submit`, whose refusals it has.
    fn submit(&mut self, batch: Batch) -> Result<u64, (KeeperError, Batch)>
        ensures submitted { Obeys D.view L.answers (Submit batch) (submitted result) (keeping self.old) (keeping self.new) }
        ensures device { KeepsDevice D.view Device (outcome result) (keeping self.old).device (keeping self.new).device };

    /// Puts a batch on the journal under a request number, as `Keeper::submit_as`, whose refusals it has.
    fn submit_as(&mut self, request: u64, batch: Batch) -> Result<Receipt, (KeeperError, Batch)>
        ensures submitted { Obeys D.view L.answers (SubmitAs request batch) (submitted_as result) (keeping self.old) (keeping self.new) }
        ensures device { KeepsDevice D.view Device (outcome result) (keeping self.old).device (keeping self.new).device };

    /// Puts a group of batches on the journal, as `Keeper::submit_all`, whose refusals it has.
    fn submit_all(&mut self, group: Group) -> Result<u64, (GroupError, Group)>
        ensures submitted { Obeys D.view L.answers (SubmitAll group) (submitted_all (last_epoch (keeping self.new).standing + 1) result) (keeping self.old) (keeping self.new) }
        ensures device { KeepsDevice D.view (ByKeeper Device) (outcome result) (keeping self.old).device (keeping self.new).device };

    /// Releases into the hall the epochs on the journal that it lacks, and answers how many these are.
    fn release(&mut self, rt: &R) -> Result<u64, KeeperError>
        ensures released { Releases D.view L.answers (released result) (keeping self.old) (keeping self.new) }
        ensures own { alone ≡ true → OnOk result ((hall self.new).batches ≡ since_base (keeping self.new)) };

    /// Lets every epoch pass that was released. Refusal: `NotPassed` of the first that has not, where no more tasks are run.
    fn settle(&mut self, rt: &R) -> Result<(), KeeperError>
        ensures settled { Settles D.view L.answers (settled result) (keeping self.old) (keeping self.new) }
        ensures own { alone ≡ true → OnOk result (((hall self.new).batches ≡ (hall self.old).batches) × (unpassed (hall self.new) ≡ None)) };

    /// Brings into the queue what has come to the outputs of the hall for epochs that have passed, and answers for how many epochs.
    fn collect(&mut self, rt: &R) -> Result<u64, KeeperError>
        ensures collected { Collects D.view L.answers (collected result) (keeping self.old) (keeping self.new) }
        ensures own { alone ≡ true → IsDone (keeping self.old) (hall self.old) → OnOk result (((keeping self.new).collected ≡ last_epoch (keeping self.new).standing) × IsDone (keeping self.new) (hall self.new)) };

    /// Cuts the hall, at no epoch above one that is given, and answers at which: the cut waits to be written.
    fn cut(&mut self, rt: &R, most: Option<u64>) -> Result<u64, KeeperError>
        ensures cut { Cuts D.view L.answers most (cut result) (keeping self.old) (keeping self.new) }
        ensures own { alone ≡ true → IsDone (keeping self.old) (hall self.old) → IfOk result (λ epoch. epoch ≡ place_between (keeping self.old).base (last_epoch (keeping self.new).standing) most) };

    /// The entries that answer what is wanted of a fold, of the states after the last epoch on the journal, and that epoch. Refusal:
    /// `NotPassed` of the first that has not passed.
    fn answer(&self, rt: &R, vertex: u8, wanted: Wanted) -> Result<(u64, Entries), KeeperError>
        ensures { Asks D.view L.answers vertex wanted (answered result) (keeping self.now) (keeping self.now) };

    /// Hands out the outputs of the first epoch of those that were collected and not yet handed out; None where there is none.
    fn next_out(&mut self) -> Option<EpochOut>
        ensures out { HandsOut D.view L.answers (Out result) (keeping self.old) (keeping self.new) }
        ensures own { alone ≡ true → hall self.new ≡ hall self.old };

    /// Writes the cut that waits, as `Keeper::write_cut`, whose refusals it has.
    fn write_cut(&mut self) -> Result<Option<u64>, KeeperError>
        ensures written { Obeys D.view L.answers WriteCut (written result) (keeping self.old) (keeping self.new) }
        ensures device { KeepsDevice D.view Device result (keeping self.old).device (keeping self.new).device };

    /// Closes cells that no epoch uses, as `Keeper::close_free`, whose refusals it has.
    fn close_free(&mut self, most: u64) -> Result<(), KeeperError>
        ensures closed { Obeys D.view L.answers (CloseFree most) (closed result) (keeping self.old) (keeping self.new) }
        ensures device { KeepsDevice D.view Device result (keeping self.old).device (keeping self.new).device };
}
