//! Two readers of a watch, in threads of their own, beside a keeper.
ghost use Rattle.std.specs.Prelude.{◌≡◌, [], ◌∷◌, Some, All, IsTrue, IfOk, IfSome, option_map};

use std::alloc::Global;
use std::marker::Model;
use std::process::Abort;
use std::test::Fail;
use std::thread::{Threads, join};
use td_calls::{Calls, Closures, Stock, StockCalls};
use td_core::Hall;
use td_disk::MemoryDisk;
use td_head::Shape;
use td_keeper::Keeper;
use td_plan::Plan;
use td_stamp::{Bag, Entry, Rec, States};
use td_watch::{Reader, Watch, Writer};

/// No closure is needed, and no state is kept.
const PLAN: &str = "0 input\n1 output 0\n";

/// How many epochs are kept while the readers read.
const EPOCHS: u64 = 20;

type KeeperInMemory = Keeper<MemoryDisk, Stock>;

/// A keeper and a hall of its own. Contracts see the watch of which the keeper has the writer.
#[derive(Drop)]
struct Desk {
    keeper: KeeperInMemory,
    hall: Hall<Stock>,
}

impl Model for Desk {
    ghost use Rattle.std.specs.Prelude.{Option, option_map};
    ghost use Rattle.atomic_table.specs.Seated.{TableId};

    ghost Value = { Option TableId };

    ghost view = { λ d. option_map (λ w. w.watch) d.keeper.watch };
}

/// A keeper of a fresh disk of four cells.
fn fresh_keeper(alloc: Global, plan: &Plan) -> Result<KeeperInMemory, Fail> {
    let Some(shape) = Shape::new(4, 4, 3) else {
        return Err(Fail::from("a shape"));
    };
    let disk = MemoryDisk::new(alloc, shape.bytes())?;
    match KeeperInMemory::format(alloc, disk, plan, shape) {
        Ok(keeper) => Ok(keeper),
        Err((refusal, disk)) => {
            drop(disk);
            Err(Fail::from(refusal))
        }
    }
}

/// Works until nothing is left to do, and says whether that went well.
fn drain(alloc: Global, hall: &mut Hall<Stock>) -> bool {
    let calls: StockCalls = Calls::new(alloc);
    let is_drained = calls.fits(hall.plan()).is_ok() && hall.drain::<StockCalls>(&calls).is_ok();
    drop(calls);
    is_drained
}

// A call that answers a `bool` says whether it went well, and then the keeper has the writer that it had.
impl Desk {
    /// A keeper of a fresh disk, and a hall that begins where it does.
    fn new(alloc: Global, plan: &Plan) -> Result<Desk, Fail> {
        let hall = Hall::<Stock>::open(alloc, plan, States::new(alloc), 1, 1)?;
        match fresh_keeper(alloc, plan) {
            Ok(keeper) => Ok(Desk { keeper, hall }),
            Err(fail) => {
                drop(hall);
                Err(fail)
            }
        }
    }

    /// Gives the keeper a writer of three zeros.
    fn attach(&mut self, writer: Writer)
        requires { writer.words ≡ 0 ∷ 0 ∷ 0 ∷ [] }
        ensures { self.new ≡ Some writer.watch }
    {
        self.keeper.attach(writer);
    }

    /// Takes back the writer.
    fn detach(&mut self) -> Option<Writer>
        ensures { option_map (λ w. w.watch) result ≡ self.old }
    {
        self.keeper.detach()
    }

    /// Submits an epoch of one record.
    fn submit(&mut self, alloc: Global) -> bool
        ensures { IsTrue result → self.new ≡ self.old }
    {
        let rec = Rec { key: 7, val: 5 };
        let Ok(members) = vec![in alloc; Entry { input: 0, rec }] else {
            return false;
        };
        match self.keeper.submit(Bag::from_vec(alloc, members)) {
            Ok(_epoch) => true,
            Err((_refusal, batch)) => {
                drop(batch);
                false
            }
        }
    }

    /// Releases into the hall what it lacks, and lets it work.
    fn work(&mut self, alloc: Global) -> bool
        ensures { IsTrue result → self.new ≡ self.old }
    {
        self.keeper.release(&mut self.hall).is_ok() && drain(alloc, &mut self.hall)
    }

    fn collect(&mut self) -> bool
        ensures { IsTrue result → self.new ≡ self.old }
    {
        self.keeper.collect(&mut self.hall).is_ok()
    }

    fn cut(&mut self) -> bool
        ensures { IsTrue result → self.new ≡ self.old }
    {
        self.keeper.cut(&mut self.hall).is_ok()
    }

    /// Writes the cut that waits, which is to be of this epoch.
    fn write_cut(&mut self, epoch: u64) -> bool
        ensures { IsTrue result → self.new ≡ self.old }
    {
        match self.keeper.write_cut() {
            Ok(Some(written)) => written == epoch,
            _ => false,
        }
    }

    /// Submits an epoch, lets the hall come to its outputs and keeps it in a cut.
    fn keep_one(&mut self, alloc: Global, epoch: u64) -> bool
        ensures { IsTrue result → self.new ≡ self.old }
    {
        self.submit(alloc)
            && self.work(alloc)
            && self.collect()
            && self.cut()
            && self.write_cut(epoch)
    }

    /// Keeps each epoch in a cut.
    fn keep_all(&mut self, alloc: Global) -> bool
        ensures { IsTrue result → self.new ≡ self.old }
    {
        for epoch in 0..EPOCHS {
            if !self.keep_one(alloc, epoch + 1) {
                return false;
            }
        }
        true
    }
}

/// Keeps each epoch in a cut, and answers the writer, where that went well.
fn keep_beside(alloc: Global, mut desk: Desk) -> Option<Writer>
    ensures { IfSome result (λ w. desk ≡ Some w.watch) }
{
    let writer = if desk.keep_all(alloc) {
        desk.detach()
    } else {
        None
    };
    drop(desk);
    writer
}

/// Reads a thousand times. No word falls.
fn read_often<R: Abort>(rt: &R, mut reader: Reader) -> Reader
    ensures { result.watch ≡ reader.watch }
{
    let mut last = reader.read();
    for _ in 1..1000u32 {
        let now = reader.read();
        assert!(rt; last[0] <= now[0] && last[1] <= now[1] && last[2] <= now[2]);
        last = now;
    }
    reader
}

/// Takes a reader back, and says whether no word that it read is above the last epoch.
fn meets(writer: &mut Writer, reader: Reader) -> bool
    requires { reader.watch ≡ writer.old.watch }
    ensures { writer.new ≡ writer.old }
{
    let met = writer.meet(reader);
    met[0] <= EPOCHS && met[1] <= EPOCHS && met[2] <= EPOCHS
}

/// The last of these readers of a watch.
fn last_reader(readers: &mut Vec<Reader>, _writer: &Writer) -> Option<Reader>
    requires { All (λ r. r ≡ _writer.now) readers.old.items }
    ensures rest { All (λ r. r ≡ _writer.now) readers.new.items }
    ensures last { IfSome result (λ r. r ≡ _writer.now) }
{
    readers.pop()
}

/// The writer of a watch of three zeros, and two readers of it.
pub(crate) fn watch(alloc: Global) -> Result<(Writer, Reader, Reader), Fail>
    ensures words { IfOk result (λ all. all.0.words ≡ 0 ∷ 0 ∷ 0 ∷ []) }
    ensures first { IfOk result (λ all. all.1.watch ≡ all.0.watch) }
    ensures second { IfOk result (λ all. all.2.watch ≡ all.0.watch) }
{
    let Watch {
        writer,
        mut readers,
    } = Watch::new(alloc, [0, 0, 0], 2)?;
    let first = last_reader(&mut readers, &writer);
    let second = last_reader(&mut readers, &writer);
    match (first, second) {
        (Some(first), Some(second)) => Ok((writer, first, second)),
        _ => Err(Fail::from("two readers")),
    }
}

fn read_beside<R: Threads + Abort + Sync>(rt: &R, alloc: Global, plan: &Plan) -> Result<(), Fail> {
    let (writer, first, second) = watch(alloc)?;
    let mut desk = Desk::new(alloc, plan)?;
    desk.attach(writer);
    let (writer, (first, second)) = join(
        rt,
        move || -> Option<Writer>
            ensures { IfSome result (λ w. desk ≡ Some w.watch) }
        { keep_beside(alloc, desk) },
        move || -> (Reader, Reader)
            ensures { (result.0.watch ≡ first.watch) × (result.1.watch ≡ second.watch) }
        {
            join(
                rt,
                move || read_often(rt, first),
                move || read_often(rt, second),
            )
        },
    );
    let Some(mut writer) = writer else {
        return Err(Fail::from("an epoch was not kept"));
    };
    assert!(rt; meets(&mut writer, first));
    assert!(rt; meets(&mut writer, second));
    Ok(())
}

#[test]
fn two_threads_read_beside_a_keeper(rt: HostRuntime) -> Result<(), Fail> {
    let plan = Plan::read(rt.alloc(), PLAN)?;
    read_beside(&rt, rt.alloc(), &plan)
}
