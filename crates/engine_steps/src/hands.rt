//! The tasks that are out: those that were taken, and those that were run.
use crate::catalogue::Catalogue;
use crate::error::StepError;
use std::alloc::Global;
use std::collections::VecDeque;
use td_calls::Stock;
use td_core::{Hall, HallError};
use td_task::{Done, Task, TaskError};

/// The tasks that were taken of halls and not run, and those that were run and not given.
#[derive(Drop)]
pub(crate) struct Hands {
    pub alloc: Global,
    pub tasks: VecDeque<Task>,
    pub dones: VecDeque<Done<Stock>>,
}

impl Hands {
    pub(crate) fn new(alloc: Global) -> Hands {
        Hands {
            alloc,
            tasks: VecDeque::new(alloc),
            dones: VecDeque::new(alloc),
        }
    }

    /// Takes a task of a shard, if it has one, and answers whether it has. It stands last from then on.
    pub(crate) fn take(
        &mut self,
        hall: &mut Hall<Stock>,
        shard: u8,
        pick: u64,
    ) -> Result<bool, HallError> {
        self.tasks.reserve(1)?;
        let Some(task) = hall.take(shard, pick)? else {
            return Ok(false);
        };
        self.tasks.push_back(task)?;
        Ok(true)
    }

    /// Runs the last task, if there is one, and answers whether there is. Where that is refused, it comes back.
    pub(crate) fn run(&mut self, calls: &Catalogue) -> Result<bool, TaskError> {
        self.dones.reserve(1)?;
        let Some(task) = self.tasks.pop_back() else {
            return Ok(false);
        };
        match task.run::<Stock, Catalogue>(self.alloc, calls) {
            Ok(done) => self.dones.push_back(done)?,
            Err((error, task)) => {
                self.tasks.push_back(task)?;
                return Err(error);
            }
        }
        Ok(true)
    }

    /// Gives the first or the last of those that were run, if there is one, and answers whether there is. Where that is
    /// refused, it comes back.
    pub(crate) fn give(
        &mut self,
        hall: &mut Hall<Stock>,
        is_first: bool,
    ) -> Result<bool, HallError> {
        let Some(done) = self.pop(is_first) else {
            return Ok(false);
        };
        match hall.give(done) {
            Ok(()) => Ok(true),
            Err((error, done)) => {
                self.put_back(is_first, done)?;
                Err(error)
            }
        }
    }

    fn pop(&mut self, is_first: bool) -> Option<Done<Stock>> {
        if is_first {
            self.dones.pop_front()
        } else {
            self.dones.pop_back()
        }
    }

    fn put_back(&mut self, is_first: bool, done: Done<Stock>) -> Result<(), HallError> {
        if is_first {
            self.dones.push_front(done)?;
        } else {
            self.dones.push_back(done)?;
        }
        Ok(())
    }

    /// Takes a task of each shard, runs them and gives them, the last first; and so on while there are tasks.
    pub(crate) fn rounds(
        &mut self,
        hall: &mut Hall<Stock>,
        calls: &Catalogue,
    ) -> Result<(), StepError> {
        for _round in 0..u64::MAX {
            self.take_each(hall)?;
            self.run_each(calls)?;
            if self.dones.is_empty() {
                break;
            }
            self.give_each(hall)?;
        }
        Ok(())
    }

    /// Takes a task of each shard at which none is out.
    fn take_each(&mut self, hall: &mut Hall<Stock>) -> Result<(), HallError> {
        for shard in 0..hall.workers() {
            match self.take(hall, shard, 0) {
                Ok(_) | Err(HallError::Busy) => {}
                Err(error) => return Err(error),
            }
        }
        Ok(())
    }

    fn run_each(&mut self, calls: &Catalogue) -> Result<(), TaskError> {
        for _task in 0..self.tasks.len() {
            self.run(calls)?;
        }
        Ok(())
    }

    fn give_each(&mut self, hall: &mut Hall<Stock>) -> Result<(), HallError> {
        for _done in 0..self.dones.len() {
            self.give(hall, false)?;
        }
        Ok(())
    }
}
