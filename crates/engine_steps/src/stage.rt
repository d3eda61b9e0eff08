//! What commands are done on.
use crate::catalogue::Catalogue;
use crate::drive::drive;
use crate::error::StepError;
use crate::hall_calls::hall_call;
use crate::hands::Hands;
use crate::keeper_calls::{checkpoint, keeper_and_hall, keeper_call};
use crate::region_calls::region_call;
use crate::ring_calls::ring_call;
use crate::store::Store;
use crate::table_calls::{could, table_call};
use crate::told::{commands_of, passage_of};
use crate::watch::{attach, read};
use crate::words::{small_and_large, state_of};
use std::alloc::Global;
use std::mem;
use std::sync::Wait;
use std::thread::Threads;
use std::time::Clock;
use td_calls::Stock;
use td_core::Hall;
use td_journal::Journal;
use td_plan::Plan;
use td_progress::Table;
use td_stamp::States;
use td_watch::Reader;

/// Epochs are numbered up to this.
const LAST: u64 = (1 << 63) - 1;

/// Two halls of a plan, the states with which the next begins, the tasks that are out, a disk, and parts of which halls and keepers
/// are made: a ring of cells and a table.
#[derive(Drop)]
pub(crate) struct Stage {
    alloc: Global,
    plan: Plan,
    calls: Catalogue,
    states: States,
    hall: Option<Hall<Stock>>,
    other: Option<Hall<Stock>>,
    hands: Hands,
    store: Store,
    reader: Option<Reader>,
    ring: Option<Journal>,
    table: Option<Table>,
}

impl Stage {
    /// No halls yet, with no states, and no disk.
    pub(crate) fn new(alloc: Global, plan: Plan) -> Stage {
        Stage {
            alloc,
            plan,
            calls: Catalogue { is_there: true },
            states: States::new(alloc),
            hall: None,
            other: None,
            hands: Hands::new(alloc),
            store: Store::Empty,
            reader: None,
            ring: None,
            table: None,
        }
    }

    /// Does the command of a name, its words and the lines of its own, and prints its answer. After `Memory` it may be done again.
    pub(crate) fn step<R: Print + Threads + Wait + Clock + Sync>(
        &mut self,
        rt: &R,
        name: &str,
        words: &str,
        lines: &str,
    ) -> Result<(), StepError> {
        match name {
            "state" => self.set_state(words),
            "open" => self.open_by_words(words),
            "other" => Ok(mem::swap(&mut self.hall, &mut self.other)),
            "closures" => {
                self.calls = Catalogue {
                    is_there: words == "all",
                };
                Ok(())
            }
            "drive" => self.drive(rt, words, lines),
            "region" => region_call(rt, self.alloc, self.store.device()?, words),
            "ring" => {
                let device = self.store.device()?;
                ring_call(rt, self.alloc, &self.plan, device, &mut self.ring, words)
            }
            "table" => table_call(rt, self.alloc, &self.plan, &mut self.table, words),
            "could" => could(rt, self.alloc, &self.plan, words),
            _ => self.call(rt, name, words),
        }
    }

    /// A call of the disk, of the keeper or of the hall.
    fn call(&mut self, rt: &impl Print, name: &str, words: &str) -> Result<(), StepError> {
        match name {
            "format"
            | "blank"
            | "recover"
            | "into_disk"
            | "stop"
            | "fail"
            | "crash"
            | "byte"
            | "size" => { self.store.call(rt, self.alloc, &self.plan, name, words) }
            "keeper" => {
                keeper_and_hall(rt, self.store.keeper()?, hall_of(&mut self.hall)?, words)
            }
            "opening" => self.open_at_checkpoint(words),
            "attach" => self.attach(rt),
            "read" => read(rt, &mut self.reader),
            "submit"
            | "submit_as"
            | "submit_all"
            | "upgrade"
            | "numbers"
            | "next_out"
            | "write_cut"
            | "detach" => { keeper_call(rt, self.alloc, self.store.keeper()?, name, words) }
            _ => {
                let hall = hall_of(&mut self.hall)?;
                hall_call(
                    rt,
                    self.alloc,
                    hall,
                    &mut self.hands,
                    &self.calls,
                    name,
                    words,
                )
            }
        }
    }

    /// `VERTEX KEY A B`: a state with which the halls begin that are opened from here on.
    fn set_state(&mut self, words: &str) -> Result<(), StepError> {
        let (vertex, key, state) = state_of(words).ok_or(StepError::Syntax)?;
        let _before = self.states.set(vertex, key, state)?;
        Ok(())
    }

    /// `WORKERS FIRST`: opens another hall.
    fn open_by_words(&mut self, words: &str) -> Result<(), StepError> {
        let (workers, first) = small_and_large(words).ok_or(StepError::Syntax)?;
        let states = self.states.copy()?;
        self.open(workers, first, states)
    }

    /// Opens another hall.
    fn open(&mut self, workers: u8, first: u64, states: States) -> Result<(), StepError> {
        if !(1..=16).contains(&workers) || !(1..=LAST).contains(&first) {
            return Err(StepError::Syntax);
        }
        let hall = Hall::open(self.alloc, &self.plan, states, first, workers)?;
        mem::swap(&mut self.hall, &mut self.other);
        put_hall(&mut self.hall, Some(hall));
        Ok(())
    }

    /// `WORKERS`: opens a hall at the keeper's checkpoint.
    fn open_at_checkpoint(&mut self, words: &str) -> Result<(), StepError> {
        let workers = words.parse().ok().ok_or(StepError::Syntax)?;
        let (epoch, states) = checkpoint(self.store.keeper()?)?;
        self.open(workers, epoch.saturating_add(1), states)
    }

    /// Attaches the writer of a fresh watch to the keeper.
    fn attach(&mut self, rt: &impl Print) -> Result<(), StepError> {
        self.reader = attach(rt, self.alloc, self.store.keeper()?)?;
        Ok(())
    }

    /// Drives the keeper beside a pool of the hall, which is there again if it was gathered. Once the pool is there, want of memory
    /// is an answer: some of it may be done.
    fn drive<R: Print + Threads + Wait + Clock + Sync>(
        &mut self,
        rt: &R,
        words: &str,
        lines: &str,
    ) -> Result<(), StepError> {
        let passage = passage_of(words).ok_or(StepError::Syntax)?;
        let commands = commands_of(self.alloc, lines)?;
        let keeper = self.store.keeper()?;
        let hall = self.hall.take().ok_or(StepError::NoHall)?;
        let hall = drive(rt, self.alloc, keeper, hall, &self.calls, passage, commands)?;
        put_hall(&mut self.hall, hall);
        Ok(())
    }
}

/// Puts a hall in the place of one that ends. (The end of a hall is long to prove: so it stands in a function that does nothing else.)
fn put_hall(place: &mut Option<Hall<Stock>>, hall: Option<Hall<Stock>>) {
    *place = hall;
}

/// The hall that was opened last.
fn hall_of(hall: &mut Option<Hall<Stock>>) -> Result<&mut Hall<Stock>, StepError> {
    match hall {
        Some(hall) => Ok(hall),
        None => Err(StepError::NoHall),
    }
}
