//! Copying the disk of a stream between two of its epochs.
//!
//! What the keeper stands for is in memory, so the stream's own disk is not read for it, and no fault of a copy is one of the stream.
ghost use Rattle.std.specs.Prelude.{◌≡◌, ◌⊎◌, Bool, false, [], ◌∷◌, None, IfOk, OnErr, IfErr};
ghost use Rattle.td_store.specs.standing.Standing.{last_epoch};
ghost use Rattle.td_store.specs.standing.Tells.{Keeps, first_head};
ghost use Rattle.td_feed.specs.Caused.{IsOfWriter};
ghost use Rattle.td_feed.specs.Copied.{with_copies};
ghost use Rattle.td_orders.specs.Noted.Aside.{to_copy};
ghost use Rattle.td_feed.specs.Session.{FeedsCopying};

use crate::host::{Host, Why};
use crate::reply_lines::{say_copied, say_not_copied};
use std::alloc::Global;
use td_calls::Law;
use td_console::{Fault, Sink};
use td_disk::Disk;
use td_keeper::Keeper;
use td_keeper::laws::each_disk_holds;
use td_orders::CopyTo;
use td_store::copy::laws::told_rises;
use td_store::copy::{check_room, write_told};
use td_store::standing::laws;

/// Copies what a keeper stands for to a new disk, and writes `copied NEW E`, with the epoch up to which it goes, or `not copied NEW: WHAT`.
/// Refusals: `Memory`, where there was no room for the line, and `Output`.
pub(crate) fn copy_aloud<D: Disk, L: Law, H: Host, W: Sink>(
    alloc: Global,
    keeper: &Keeper<D, L>,
    copy: &CopyTo,
    host: &mut H,
    writer: &mut W,
) -> Result<(), Fault>
    requires whole { keeper.now.broken ≡ false }
    ensures fed { (marks : Bool) → FeedsCopying D.view L.answers marks H.New.view result (W.contents writer.old) (W.contents writer.new)
        (H.copies host.old) (H.copies host.new) keeper.now keeper.now [] (to_copy copy.now.name copy.now.shape None ∷ []) }
    ensures seen { H.seen host.new ≡ H.seen host.old }
    ensures refusals { IfErr result (λ f. (f ≡ Fault.Output) ⊎ (f ≡ Fault.Memory)) }
    ensures fault { IfErr result (IsOfWriter W.HasRoom) }
{
    laws::told_in_parts();
    match copied(alloc, keeper, copy, host) {
        Ok(epoch) => say_copied(alloc, &copy.name, epoch, writer),
        Err(why) => say_not_copied(alloc, &copy.name, &why, writer),
    }
}

/// Copies what a keeper stands for to a new disk, which its host keeps; answers up to which epoch it goes. Refusal: why not.
fn copied<D: Disk, L: Law, H: Host>(
    alloc: Global,
    keeper: &Keeper<D, L>,
    copy: &CopyTo,
    host: &mut H,
) -> Result<u64, Why>
    requires whole { keeper.now.broken ≡ false }
    // Whatever a crash leaves of the new disk tells what the keeper stands for.
    ensures copied { IfOk result (λ epoch. (epoch ≡ last_epoch keeper.now.standing) × ((disk : H.New)
        × (H.copies host.new ≡ with_copies (H.copies host.old) (record { name = copy.now.name; epoch = epoch; disk = disk } ∷ []))
        × ((D.view keeper.now.device).lawful → (H.New.view disk).lawful → Keeps keeper.now.plan (first_head copy.now.shape) 0 keeper.now.standing (H.New.view disk).state))) }
    ensures none { OnErr result (H.copies host.new ≡ H.copies host.old) }
    ensures seen { H.seen host.new ≡ H.seen host.old }
{
    told_rises();
    each_disk_holds(keeper);
    let told = match keeper.told() {
        Ok(told) => told,
        Err(_memory) => return Err(Why::Memory),
    };
    if let Err(refusal) = check_room(copy.shape, &told) {
        return Err(Why::Because(format!(in alloc; "{refusal}")?));
    }
    let mut disk = host.make(alloc, copy)?;
    match write_told(alloc, &mut disk, keeper.plan(), copy.shape, &told) {
        Ok(()) => {
            let epoch = keeper.last_epoch();
            host.keep(&copy.name, epoch, disk);
            Ok(epoch)
        }
        Err(refusal) => {
            drop(disk);
            Err(host.give_up(alloc, refusal))
        }
    }
}
