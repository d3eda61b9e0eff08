//! What commands are done on.
use crate::catalogue::Catalogue;
use crate::command::{Command, KeeperCall, entry_of};
use crate::error::StepError;
use crate::lines::{print_ended, print_opening};
use crate::meeting::Meeting;
use std::alloc::Global;
use std::io;
use std::sync::Wait;
use std::thread::Threads;
use td_calls::{Closures, Stock};
use td_console::StdWriter;
use td_disk::{Disk, Fill, FuseDisk, MemoryDisk};
use td_feed::Session;
use td_head::Shape;
use td_keeper::Keeper;
use td_plan::Plan;
use td_stamp::Batch;
use td_store::standing::KeeperError;

/// A disk in memory that stops at one of its calls.
type Device = FuseDisk<MemoryDisk>;

/// A plan, its closures, and a disk.
#[derive(Drop)]
pub(crate) struct Stage {
    alloc: Global,
    plan: Plan,
    calls: Catalogue,
    disk: Option<Device>,
}

impl Stage {
    /// No disk yet.
    pub(crate) fn new(alloc: Global, plan: Plan) -> Stage {
        Stage {
            alloc,
            plan,
            calls: Catalogue { is_there: true },
            disk: None,
        }
    }

    /// Does a command, and prints its answer. After `Memory` the command may be done again.
    pub(crate) fn step<R: Print + Threads + Wait + Sync>(
        &mut self,
        rt: &R,
        command: Command<'_>,
    ) -> Result<(), StepError> {
        match command {
            Command::Closures(is_there) => {
                self.calls = Catalogue { is_there };
                Ok(())
            }
            Command::Format(m, n, k) => self.format(rt, Shape::new(m, n, k)),
            Command::Blank(bytes) => self.blank(bytes),
            Command::Stop(k) => self.stop(k),
            Command::Crash(fill) => self.crash(fill),
            Command::Byte(at, byte) => self.set_byte(at, byte),
            Command::Show => self.show(rt),
            Command::Keeper(call) => self.keeper_call(rt, call),
            Command::Feed(workers, input) => self.feed(rt, workers, input),
            Command::Meet(workers, input) => self.meet(rt, workers, input),
        }
    }

    /// The disk, which is to come back.
    fn take(&mut self) -> Result<Device, StepError> {
        self.disk.take().ok_or(StepError::NoDisk)
    }

    /// Puts a disk in the place of the one that is there, if there is one.
    fn put_back(&mut self, device: Device) {
        self.disk = Some(device);
    }

    /// Makes a disk of a shape, if there is such a shape, and formats it.
    fn format(&mut self, rt: &impl Print, shape: Option<Shape>) -> Result<(), StepError> {
        let Some(shape) = shape else {
            return Ok(println!(rt; "refused: shape")?);
        };
        let (device, formatted) = formatted(self.alloc, &self.plan, shape)?;
        self.put_back(device);
        Ok(formatted?)
    }

    /// Makes a disk of zeros.
    fn blank(&mut self, bytes: u64) -> Result<(), StepError> {
        let memory = MemoryDisk::new(self.alloc, bytes)?;
        self.put_back(sound(memory));
        Ok(())
    }

    fn stop(&mut self, k: u64) -> Result<(), StepError> {
        let memory = self.take()?.into_inner();
        self.put_back(FuseDisk::stop_at(memory, k));
        Ok(())
    }

    fn crash(&mut self, fill: Fill) -> Result<(), StepError> {
        let memory = self.take()?.into_inner();
        match memory.crash(fill) {
            Ok(left) => {
                self.put_back(sound(left));
                Ok(())
            }
            Err(error) => {
                self.put_back(sound(memory));
                Err(StepError::from(error))
            }
        }
    }

    /// Puts another byte there, to stay. Refusals: `Syntax`, where the disk is smaller, and `Memory`.
    fn set_byte(&mut self, at: u64, byte: u8) -> Result<(), StepError> {
        let mut memory = self.take()?.into_inner();
        let set = set_byte(&mut memory, at, byte);
        self.put_back(sound(memory));
        set
    }

    /// Prints what the disk tells, in lines.
    fn show(&mut self, rt: &impl Print) -> Result<(), StepError> {
        let mut device = self.take()?;
        let mut writer = StdWriter(io::writer(rt));
        let shown = td_report::show(self.alloc, &mut device, &self.plan, &mut writer);
        self.put_back(device);
        Ok(shown?)
    }

    fn keeper_call(&mut self, rt: &impl Print, call: KeeperCall<'_>) -> Result<(), StepError> {
        match call {
            KeeperCall::Recover => self.recover(rt),
            KeeperCall::Submit(entries) => self.submit(rt, entries),
            KeeperCall::Numbers => self.numbers(rt),
        }
    }

    /// A keeper of the disk, which has it.
    fn keeper(&mut self) -> Result<Keeper<Device, Stock>, StepError> {
        let device = self.take()?;
        match Keeper::<Device, Stock>::recover(self.alloc, device, &self.plan) {
            Ok(keeper) => Ok(keeper),
            Err((refusal, device)) => {
                self.put_back(device);
                Err(StepError::from(refusal))
            }
        }
    }

    /// Prints what a keeper recovers.
    fn recover(&mut self, rt: &impl Print) -> Result<(), StepError> {
        let keeper = self.keeper()?;
        let opening = keeper.opening();
        self.put_back(keeper.into_disk());
        print_opening(rt, opening)
    }

    /// Submits the batch of entries that a text writes, and prints its epoch.
    fn submit(&mut self, rt: &impl Print, text: &str) -> Result<(), StepError> {
        let batch = batch_of(self.alloc, text)?;
        let mut keeper = self.keeper()?;
        let submitted = keeper.submit(batch);
        self.put_back(keeper.into_disk());
        match submitted {
            Ok(epoch) => Ok(println!(rt; "ack {epoch}")?),
            Err((refusal, _batch)) => Err(StepError::from(refusal)),
        }
    }

    /// Prints the last request number, and the version of the format.
    fn numbers(&mut self, rt: &impl Print) -> Result<(), StepError> {
        let keeper = self.keeper()?;
        let last = keeper.last_request();
        let version = keeper.version();
        self.put_back(keeper.into_disk());
        Ok(println!(rt; "last {last}, version {version}")?)
    }

    /// Feeds the disk by the catalogue.
    fn feed<R: Print + Threads + Wait + Sync>(
        &mut self,
        rt: &R,
        workers: u8,
        input: &str,
    ) -> Result<(), StepError> {
        let calls = self.calls;
        self.feed_by(rt, workers, input, &calls)
    }

    /// Feeds the disk by a map whose calls look for one another, and prints whether they met.
    fn meet<R: Print + Threads + Wait + Sync>(
        &mut self,
        rt: &R,
        workers: u8,
        input: &str,
    ) -> Result<(), StepError> {
        let meeting = Meeting::new();
        self.feed_by(rt, workers, input, &meeting)?;
        if meeting.has_met() {
            println!(rt; "met")?;
        }
        Ok(())
    }

    /// Feeds the disk. After `Memory` it is not done again: some of it may be done.
    fn feed_by<C: Closures<Stock> + Sync, R: Print + Threads + Wait + Sync>(
        &mut self,
        rt: &R,
        workers: u8,
        input: &str,
        calls: &C,
    ) -> Result<(), StepError> {
        if !(1..=16).contains(&workers) {
            return Err(StepError::Syntax);
        }
        let disk = self.take()?;
        let session = Session::<Stock, C, _>::new(rt, self.alloc, &self.plan, workers, calls);
        let fed = session.feed(disk, &mut input.as_bytes(), StdWriter(io::writer(rt)));
        self.put_back(fed.disk);
        print_ended(rt, fed.ended)
    }
}

/// A disk that does not stop.
fn sound(memory: MemoryDisk) -> Device {
    FuseDisk::stop_at(memory, u64::MAX)
}

/// A fresh disk of a shape, formatted for a plan; or why it was not.
fn formatted(
    alloc: Global,
    plan: &Plan,
    shape: Shape,
) -> Result<(Device, Result<(), KeeperError>), StepError> {
    let device = sound(MemoryDisk::new(alloc, shape.bytes())?);
    if device.size() < shape.bytes() {
        return Err(StepError::NoDisk);
    }
    match Keeper::<Device, Stock>::format(alloc, device, plan, shape) {
        Ok(keeper) => Ok((keeper.into_disk(), Ok(()))),
        Err((refusal, device)) => Ok((device, Err(refusal))),
    }
}

fn set_byte(memory: &mut MemoryDisk, at: u64, byte: u8) -> Result<(), StepError> {
    if memory.size() <= at {
        return Err(StepError::Syntax);
    }
    memory.write(at, &[byte])?;
    Ok(memory.sync()?)
}

/// The entries between commas, if there are any.
fn batch_of(alloc: Global, text: &str) -> Result<Batch, StepError> {
    let mut batch = Batch::new(alloc);
    if text.is_empty() {
        return Ok(batch);
    }
    for part in text.split(',') {
        batch.add(entry_of(part).ok_or(StepError::Syntax)?)?;
    }
    Ok(batch)
}
