//! A keeper beside the workers of a pool.
ghost use Rattle.std.specs.Prelude.{◌≡◌, ◌↔◌, ◌≤◌, true, false, IfOk, IfErr};
ghost use Rattle.td_store.specs.standing.Standing.{last_request};
ghost use Rattle.td_keeper.specs.Driven.{needs_hall, Obeys, Drives};
ghost use Rattle.td_store.specs.declared.standing.error.KeeperError.TheVariants.{Memory};

use crate::command::{Command, Reply};
use crate::keeper::Keeper;
use crate::laws::{each_disk_holds, each_is_kept};
use std::sync::Wait;
use td_calls::Law;
use td_disk::Disk;
use td_pool::{Crew, Pool};
use td_store::standing::{KeeperError, laws};

impl<D: Disk, L: Law> Keeper<D, L> {
    /// Obeys commands, one after another, beside workers of a pool, and replies to each. What is done with the pool's hall is done
    /// under one hold of its lock for each command, as `release`, `collect`, `cut` and `answer_in` do it; between two holds the hall is any that
    /// workers may leave. `Settle` lets the lock go while it waits; its refusal is `NotPassed` of the first released epoch that has
    /// not passed, where the pool was stopped before. The replies are those of the keeper's calls.
    ///
    /// Refusal, before anything else, with the commands handed back and nothing changed: `Memory`, where there is no room for the
    /// replies.
    pub fn drive<K: Crew, R: Wait>(
        &mut self,
        rt: &R,
        pool: &Pool<K, L>,
        commands: Vec<Command>,
    ) -> Result<Vec<Reply>, (KeeperError, Vec<Command>)>
        ensures driven { IfOk result (λ replies. Drives D.view L.answers commands.items replies.items self.old self.new) }
        ensures refused { IfErr result (λ e. (e.0 ≡ Memory) × (e.1 ≡ commands) × (self.new ≡ self.old)) }
        ensures size { (D.view self.new.device).capacity ≡ (D.view self.old.device).capacity }
        ensures lawful { (D.view self.old.device).lawful ↔ (D.view self.new.device).lawful }
        ensures counted { (D.view self.old.device).failures ≤ (D.view self.new.device).failures }

        // The greatest request number never falls.
        ensures never_falls { last_request self.old.standing ≤ last_request self.new.standing }

        // A keeper that is broken writes nothing, whatever it is told.
        ensures broken { self.old.broken ≡ true → self.new.device ≡ self.old.device }
    {
        laws::told_in_parts();
        laws::standings_advance::<L>();
        laws::advances_join::<L>();
        laws::last_request_never_falls::<L>();
        td_batch::laws::run_joins::<L>();
        each_is_kept(self);
        each_disk_holds(self);
        let Ok(mut replies) = Vec::with_capacity(self.alloc, commands.len()) else {
            return Err((KeeperError::Memory, commands));
        };
        for command in commands {
            replies.push_reserved(self.obey(rt, pool, command));
            each_is_kept(self);
        }
        Ok(replies)
    }

    /// Obeys one command, beside workers of a pool.
    fn obey<K: Crew, R: Wait>(&mut self, rt: &R, pool: &Pool<K, L>, command: Command) -> Reply
        ensures obeyed { Obeys D.view L.answers command result self.old self.new }
        ensures size { (D.view self.new.device).capacity ≡ (D.view self.old.device).capacity }
        ensures lawful { (D.view self.old.device).lawful ↔ (D.view self.new.device).lawful }
    {
        match command {
            Command::Release => Reply::of_release(self.release_in(rt, pool)),
            Command::Settle => Reply::of_settle(self.settle_in(rt, pool)),
            Command::Collect => Reply::of_collect(self.collect_in(rt, pool)),
            Command::Cut => Reply::of_cut(self.cut_in(rt, pool)),
            Command::CutUpTo(epoch) => Reply::of_cut(self.cut_up_to_in(rt, pool, epoch)),
            Command::Answer(vertex, wanted) => Reply::of_answer(self.answer_in(
                rt, pool, vertex, wanted,
            )),
            other => self.obey_without_hall(other),
        }
    }

    /// Obeys a command for which it needs no hall, as the call of that name does.
    fn obey_without_hall(&mut self, command: Command) -> Reply
        requires { needs_hall command ≡ false }
        ensures obeyed { Obeys D.view L.answers command result self.old self.new }
        ensures size { (D.view self.new.device).capacity ≡ (D.view self.old.device).capacity }
        ensures lawful { (D.view self.old.device).lawful ↔ (D.view self.new.device).lawful }
    {
        each_is_kept(self);
        match command {
            Command::Submit(batch) => Reply::of_submit(self.submit(batch)),
            Command::SubmitAs(request, batch) => {
                Reply::of_submit_as(self.submit_as(request, batch))
            }
            Command::SubmitAll(group) => {
                let submitted = self.submit_all(group);
                Reply::of_submit_all(submitted, self.last_epoch() + 1)
            }
            Command::NextOut => Reply::Out(self.next_out()),
            Command::WriteCut => Reply::of_write_cut(self.write_cut()),
            Command::CloseFree(most) => Reply::of_close_free(self.close_free(most)),
            Command::Release
            | Command::Settle
            | Command::Collect
            | Command::Cut
            | Command::CutUpTo(_)
            | Command::Answer(..) => unreachable!(),
        }
    }
}
