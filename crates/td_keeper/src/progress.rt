//! How far a keeper has come; and the watch beside it, by which other threads follow that.
//!
//! A writer of a watch is the keeper's own while it is attached. A `cut` publishes too, where it brings in what `collect` would. No
//! epoch is collected before it is acknowledged, so the three words are in order by the keeper's type. All but `kept_states` take no
//! memory.
ghost use Rattle.std.specs.Prelude.{◌≡◌, ◌<◌, ◌≤◌, ◌^◌, Some, None, IfSome, ◌↔◌, ◌-◌, IsTrue, length, IfOk, IfErr};
ghost use Rattle.td_watch.specs.Words.{IsAtMost, KeepsOrder, acked};
ghost use Rattle.td_store.specs.standing.Standing.{last_epoch, standing_from, last_request};
ghost use Rattle.td_keeper.specs.Keeping.{words_of, words_at, published, IsBelow};

use crate::keeper::Keeper;
use std::collections::VecDeque;
use std::mem;
use td_calls::Law;
use td_disk::Disk;
use td_journal::Submitted;
use td_plan::Plan;
use td_slots::Checkpoint;
use td_stamp::States;
use td_store::standing::KeeperError;
use td_watch::Writer;

impl<D: Disk, L: Law> Keeper<D, L> {
    /// Attaches the writer of a watch, and answers the one that was attached before. From then on it publishes, after each
    /// submit, collect and written cut that is answered with success: the last epoch that is acknowledged, the last that was
    /// collected, and the last that is kept. It takes no memory and writes nothing to the disk.
    pub fn attach(&mut self, writer: Writer) -> Option<Writer>
        requires { IsAtMost writer.words (words_of self.old) }
        ensures before { result ≡ self.old.watch }
        ensures attached { self.new ≡ record self.old { watch = Some writer } }
    {
        // Read for its contract alone.
        let _last = self.last_epoch();
        mem::replace(&mut self.watch, Some(writer))
    }

    /// Takes back the writer that is attached. No word of it is above this keeper's, so whatever a crash leaves of the disk
    /// holds each epoch that it says is acknowledged. It takes no memory and writes nothing to the disk.
    pub fn detach(&mut self) -> Option<Writer>
        ensures before { result ≡ self.old.watch }
        ensures below { IfSome result (λ w. IsAtMost w.words (words_of self.old)) }
        ensures held { IfSome result (λ w. acked w.words ≤ last_epoch self.old.standing) }
        ensures detached { self.new ≡ record self.old { watch = None } }
    {
        // Read for its contract alone.
        let _last = self.last_epoch();
        mem::take(&mut self.watch)
    }
}

/// The words of a keeper with this checkpoint, these epochs after it, and this last epoch that was collected.
pub(crate) fn words_at(
    checkpoint: &Checkpoint,
    submitted: &VecDeque<Submitted>,
    collected: u64,
) -> [u64; 3]
    requires { last_epoch (standing_from checkpoint.now submitted.now.items) < 2 ^ 63 }
    ensures { result ≡ words_at (standing_from checkpoint.now submitted.now.items) collected }
{
    let acked = checkpoint.epoch + submitted.len() as u64;
    [acked, collected, checkpoint.epoch]
}

/// Publishes words, where a writer is attached.
pub(crate) fn publish(watch: &mut Option<Writer>, words: [u64; 3])
    requires ordered { KeepsOrder words }
    requires rises { IsBelow watch.old words }
    ensures { watch.new ≡ published watch.old words }
{
    if let Some(writer) = watch {
        writer.publish(words);
    }
}

impl<D: Disk, L: Law> Keeper<D, L> {
    /// The last epoch that is acknowledged: that of the checkpoint, or the last on the journal after it.
    pub fn last_epoch(&self) -> u64
        ensures { result ≡ last_epoch self.now.standing }
    {
        self.checkpoint.epoch + self.submitted.len() as u64
    }

    /// The greatest request number that the disk has, 0 for none: that of an epoch after the checkpoint, or of one up to it.
    pub fn last_request(&self) -> u64
        ensures { result ≡ last_request self.now.standing }
    {
        self.last_request
    }

    /// The version of the format that the disk has: 2, which has request numbers, or 1.
    pub fn version(&self) -> u32
        ensures { result ≡ self.now.head.version }
    {
        self.head.version
    }

    /// Whether the journal has no room for an epoch more: a cut that is written makes room.
    pub fn is_full(&self) -> bool
        ensures { IsTrue result ↔ (self.now.head.shape.n ≤ length self.now.standing.submitted) }
    {
        u64::from(self.head.shape.cells()) <= self.submitted.len() as u64
    }

    /// How many cells of the journal are free: so many epochs more it takes before a cut is written.
    pub fn free(&self) -> u64
        ensures { result ≡ self.now.head.shape.n - length self.now.standing.submitted }
    {
        u64::from(self.head.shape.cells()) - self.submitted.len() as u64
    }

    /// How many records an epoch may have.
    pub fn records(&self) -> u32
        ensures { result ≡ self.now.head.shape.m }
    {
        self.head.shape.records()
    }

    /// The last epoch whose outputs were collected.
    pub fn collected(&self) -> u64
        ensures { result ≡ self.now.collected }
    {
        self.collected
    }

    /// The last epoch that is kept: that of the checkpoint.
    pub fn kept(&self) -> u64
        ensures { result ≡ self.now.standing.epoch }
    {
        self.checkpoint.epoch
    }

    /// The states of the checkpoint, in memory of their own. Refusal: `Memory`.
    pub fn kept_states(&self) -> Result<States, KeeperError>
        ensures states { IfOk result (λ s. s ≡ self.now.standing.states) }
        ensures refusals { IfErr result (λ e. e ≡ KeeperError.Memory) }
    {
        Ok(self.checkpoint.states.to_states(self.alloc)?)
    }

    /// The plan.
    pub fn plan(&self) -> &Plan
        ensures { result.now ≡ self.now.plan }
    {
        &self.plan
    }

    /// Whether the device failed in an earlier call that writes.
    pub fn is_broken(&self) -> bool
        ensures { result ≡ self.now.broken }
    {
        self.broken
    }
}
