//! The disk of a stage, which a keeper may have.
use crate::device::{Device, failing, memory_of, resized, set_byte, sound, stopping};
use crate::error::StepError;
use crate::keeper_lines::print_opening;
use crate::words::{byte_of, fill_of, number_of, shape_of};
use std::alloc::Global;
use std::mem;
use td_calls::Stock;
use td_disk::{Disk, Fill, MemoryDisk};
use td_head::Shape;
use td_keeper::Keeper;
use td_plan::Plan;
use td_store::standing::KeeperError;

/// A disk, or a keeper that has one, or none yet.
#[derive(Drop)]
pub(crate) enum Store {
    Empty,
    Disk(Device),
    Kept(Keeper<Device, Stock>),
}

impl Store {
    /// Does the call of a name and its words, and prints its answer. After `Memory` it may be done again.
    pub(crate) fn call(
        &mut self,
        rt: &impl Print,
        alloc: Global,
        plan: &Plan,
        name: &str,
        words: &str,
    ) -> Result<(), StepError> {
        match (name, words) {
            ("format", shape) => self.format(rt, alloc, plan, shape),
            ("blank", bytes) => self.blank(alloc, number_of(bytes)?),
            ("recover", "") => self.recover(rt, alloc, plan),
            ("into_disk", "") => self.into_disk(),
            ("stop", k) => self.stop(number_of(k)?),
            ("fail", k) => self.fail(number_of(k)?),
            ("crash", fill) => self.crash(fill_of(fill).ok_or(StepError::Syntax)?),
            ("byte", words) => self.set_byte(words),
            ("size", bytes) => self.resize(alloc, number_of(bytes)?),
            _ => Err(StepError::Syntax),
        }
    }

    /// The keeper.
    pub(crate) fn keeper(&mut self) -> Result<&mut Keeper<Device, Stock>, StepError> {
        match self {
            Store::Kept(keeper) => Ok(keeper),
            Store::Disk(_) | Store::Empty => Err(StepError::NoKeeper),
        }
    }

    /// The disk, in its place. No keeper has it any more.
    pub(crate) fn device(&mut self) -> Result<&mut Device, StepError> {
        self.into_disk()?;
        match self {
            Store::Disk(device) => Ok(device),
            Store::Kept(_) | Store::Empty => Err(StepError::NoDisk),
        }
    }

    /// The disk. No keeper has it any more.
    pub(crate) fn take(&mut self) -> Result<Device, StepError> {
        match mem::replace(self, Store::Empty) {
            Store::Empty => Err(StepError::NoDisk),
            Store::Disk(device) => Ok(device),
            Store::Kept(keeper) => Ok(keeper.into_disk()),
        }
    }

    /// Puts another in the place of what is there.
    fn put(&mut self, store: Store) {
        *self = store;
    }

    /// `M N K`: makes a disk of that shape, if there is such a shape, and formats it.
    fn format(
        &mut self,
        rt: &impl Print,
        alloc: Global,
        plan: &Plan,
        words: &str,
    ) -> Result<(), StepError> {
        let (m, n, k) = shape_of(words).ok_or(StepError::Syntax)?;
        let Some(shape) = Shape::new(m, n, k) else {
            return Ok(println!(rt; "refused: shape")?);
        };
        let (store, formatted) = formatted(alloc, plan, shape)?;
        self.put(store);
        Ok(formatted?)
    }

    /// Recovers the disk, and prints what it tells.
    fn recover(&mut self, rt: &impl Print, alloc: Global, plan: &Plan) -> Result<(), StepError> {
        let (store, recovered) = kept(Keeper::recover(alloc, self.take()?, plan));
        self.put(store);
        recovered?;
        self.print_opening(rt)
    }

    fn print_opening(&mut self, rt: &impl Print) -> Result<(), StepError> {
        print_opening(rt, self.keeper()?.opening())
    }

    /// Makes a disk of zeros.
    fn blank(&mut self, alloc: Global, bytes: u64) -> Result<(), StepError> {
        let memory = MemoryDisk::new(alloc, bytes)?;
        self.put(Store::Disk(sound(memory)));
        Ok(())
    }

    fn into_disk(&mut self) -> Result<(), StepError> {
        let device = self.take()?;
        self.put(Store::Disk(device));
        Ok(())
    }

    fn stop(&mut self, k: u64) -> Result<(), StepError> {
        let memory = memory_of(self.take()?);
        self.put(Store::Disk(stopping(memory, k)));
        Ok(())
    }

    fn fail(&mut self, k: u64) -> Result<(), StepError> {
        let memory = memory_of(self.take()?);
        self.put(Store::Disk(failing(memory, k)));
        Ok(())
    }

    /// `AT HH`: puts another byte there.
    fn set_byte(&mut self, words: &str) -> Result<(), StepError> {
        let (at, byte) = byte_of(words).ok_or(StepError::Syntax)?;
        let mut memory = memory_of(self.take()?);
        let set = set_byte(&mut memory, at, byte);
        self.put(Store::Disk(sound(memory)));
        set
    }

    fn crash(&mut self, fill: Fill) -> Result<(), StepError> {
        let memory = memory_of(self.take()?);
        match memory.crash(fill) {
            Ok(left) => {
                self.put(Store::Disk(sound(left)));
                Ok(())
            }
            Err(error) => {
                self.put(Store::Disk(sound(memory)));
                Err(StepError::from(error))
            }
        }
    }

    fn resize(&mut self, alloc: Global, bytes: u64) -> Result<(), StepError> {
        let mut memory = memory_of(self.take()?);
        match resized(alloc, &mut memory, bytes) {
            Ok(resized) => {
                self.put(Store::Disk(sound(resized)));
                Ok(())
            }
            Err(error) => {
                self.put(Store::Disk(sound(memory)));
                Err(error)
            }
        }
    }
}

/// A fresh disk of a shape, formatted for a plan; or why it was not.
fn formatted(
    alloc: Global,
    plan: &Plan,
    shape: Shape,
) -> Result<(Store, Result<(), KeeperError>), StepError> {
    let device = sound(MemoryDisk::new(alloc, shape.bytes())?);
    if device.size() < shape.bytes() {
        return Err(StepError::Unlike);
    }
    Ok(kept(Keeper::format(alloc, device, plan, shape)))
}

/// The keeper that was made; or the disk, and why there is none.
fn kept(
    made: Result<Keeper<Device, Stock>, (KeeperError, Device)>,
) -> (Store, Result<(), KeeperError>) {
    match made {
        Ok(keeper) => (Store::Kept(keeper), Ok(())),
        Err((refusal, device)) => (Store::Disk(device), Err(refusal)),
    }
}
