//! What a stream puts on its disk, counted as it goes by.
//!
//! The watch of a keeper has epochs alone, and nothing that a feed is told has the count of records or of states. A cell and a slot
//! begin with the count of what they hold, so it is read where they are written; neighbouring cells come in one write. It shows once the
//! gate before which it was written was opened and that was synced. What is read and what is written stay as they are.

use std::alloc::Global;
use std::io::Result as IoResult;
use std::sync::Arc;
use std::sync::atomic::{AtomicBool, AtomicU64, Ordering};
use td_console::Source;
use td_disk::{Disk, Fault};
use td_gate::OPEN;
use td_gate::fields::{FRONT_LEN, Front};
use td_head::Shape;

/// How many states the checkpoint of a disk has, and how many epochs and records a stream has put on it.
#[derive(Clone, Copy, Debug, PartialEq, Eq)]
pub(crate) struct Counts {
    pub states: u64,
    pub epochs: u64,
    pub records: u64,
}

/// Counts that one thread writes and another reads. Each is read by itself.
#[derive(Drop)]
pub(crate) struct Gauge {
    is_read: AtomicBool,
    states: AtomicU64,
    epochs: AtomicU64,
    records: AtomicU64,
    seen: AtomicU64,
}

impl Gauge {
    /// Nothing is counted.
    pub(crate) fn new() -> Gauge {
        Gauge {
            is_read: AtomicBool::new(false),
            states: AtomicU64::new(0),
            epochs: AtomicU64::new(0),
            records: AtomicU64::new(0),
            seen: AtomicU64::new(0),
        }
    }

    /// Whether the input is read, which is so once the disk is recovered.
    pub(crate) fn is_read(&self) -> bool {
        self.is_read.load(Ordering::SeqCst)
    }

    /// The last epoch that the consumer has seen, where outputs are held; 0 before one is told.
    pub(crate) fn seen(&self) -> u64 {
        self.seen.load(Ordering::SeqCst)
    }

    /// The consumer has seen all epochs up to this one.
    pub(crate) fn tell_seen(&self, epoch: u64) {
        self.seen.store(epoch, Ordering::SeqCst);
    }

    /// What was counted.
    pub(crate) fn counts(&self) -> Counts {
        Counts {
            states: self.states.load(Ordering::SeqCst),
            epochs: self.epochs.load(Ordering::SeqCst),
            records: self.records.load(Ordering::SeqCst),
        }
    }
}

/// What counts the calls of a disk.
#[derive(Drop)]
struct Meter {
    gauge: Arc<Gauge, Global>,
    slots_at: u64,
    cells_at: u64,
    cell_size: usize,
    newest: Option<u64>,
    counts: Counts,
    is_opened: bool,
}

impl Meter {
    /// Whether an offset is of the slots.
    fn is_of_slots(&self, at: u64) -> bool {
        self.slots_at <= at && at < self.cells_at
    }

    /// Bytes were read: those of a slot, at recovery, are the checkpoint's where no slot that was read before has as great an epoch.
    fn note_read(&mut self, at: u64, bytes: &[u8]) {
        if bytes.len() < FRONT_LEN || !self.is_of_slots(at) {
            return;
        }
        let front = Front::read(bytes);
        let is_newer = match self.newest {
            Some(epoch) => epoch < front.epoch,
            None => true,
        };
        if is_newer {
            self.newest = Some(front.epoch);
            self.counts.states = u64::from(front.count);
            self.show();
        }
    }

    /// Bytes were written: a gate, or what stands before one.
    fn note_write(&mut self, at: u64, bytes: &[u8]) {
        if bytes.len() < FRONT_LEN {
            self.is_opened = bytes.starts_with(&[OPEN]);
        } else if self.is_of_slots(at) {
            self.counts.states = u64::from(Front::read(bytes).count);
        } else {
            self.note_cells(bytes);
        }
    }

    /// A payload of a cell was written, or cells with their gates, one after another.
    fn note_cells(&mut self, bytes: &[u8]) {
        for cell in bytes.chunks(self.cell_size.max(1)) {
            if FRONT_LEN <= cell.len() {
                let count = u64::from(Front::read(cell).count);
                self.counts.epochs = self.counts.epochs.saturating_add(1);
                self.counts.records = self.counts.records.saturating_add(count);
            }
        }
    }

    /// All that was written was synced. The gate of a group that is opened last is over all of its cells.
    fn note_sync(&mut self) {
        if self.is_opened {
            self.is_opened = false;
            self.show();
        }
    }

    /// Lets others read what was counted.
    fn show(&self) {
        let Counts {
            states,
            epochs,
            records,
        } = self.counts;
        self.gauge.states.store(states, Ordering::SeqCst);
        self.gauge.epochs.store(epochs, Ordering::SeqCst);
        self.gauge.records.store(records, Ordering::SeqCst);
    }
}

/// How many bytes a cell of a disk of this shape has, its gate too.
fn cell_size(shape: &Shape) -> usize {
    let cells = shape.bytes().saturating_sub(shape.cells_at());
    (cells / u64::from(shape.cells()).max(1)) as usize
}

/// A disk, with what counts its calls.
#[derive(Drop)]
pub(crate) struct Metered<D: Disk> {
    inner: D,
    meter: Meter,
}

impl<D: Disk> Metered<D> {
    /// A disk of this shape whose calls are counted from now on. Without a shape what is counted means nothing.
    pub(crate) fn new(inner: D, gauge: Arc<Gauge, Global>, shape: Option<Shape>) -> Metered<D> {
        let (slots_at, cells_at, cell_size) = match shape {
            Some(shape) => (shape.slots_at(), shape.cells_at(), cell_size(&shape)),
            None => (0, 0, 0),
        };
        Metered {
            inner,
            meter: Meter {
                gauge,
                slots_at,
                cells_at,
                cell_size,
                newest: None,
                counts: Counts {
                    states: 0,
                    epochs: 0,
                    records: 0,
                },
                is_opened: false,
            },
        }
    }

    /// The disk.
    pub(crate) fn inner(&self) -> &D {
        &self.inner
    }
}

impl<D: Disk> Disk for Metered<D> {
    ghost view = { λ m. D.view m.inner };

    ghost reads_image = { λ m lawful. D.reads_image m.inner lawful };

    ghost image_size = { λ m c lawful image. D.image_size m.inner c lawful image };

    ghost counts_now = { λ m t c lawful le image. D.counts_now m.inner t c lawful le image };

    ghost only_now = { λ m c lawful left. D.only_now m.inner c lawful left };

    fn size(&self) -> u64 {
        self.inner.size()
    }

    fn read(&mut self, at: u64, bytes: &mut [u8]) -> Result<(), Fault> {
        let answer = self.inner.read(at, bytes);
        if answer.is_ok() {
            self.meter.note_read(at, bytes);
        }
        answer
    }

    fn write(&mut self, at: u64, bytes: &[u8]) -> Result<(), Fault> {
        self.meter.note_write(at, bytes);
        self.inner.write(at, bytes)
    }

    fn sync(&mut self) -> Result<(), Fault> {
        let answer = self.inner.sync();
        if answer.is_ok() {
            self.meter.note_sync();
        }
        answer
    }
}

/// A reader of which another thread knows once it is read, which a stream does when its disk is recovered.
#[derive(Drop)]
pub(crate) struct Noticed<I: Source> {
    inner: I,
    gauge: Arc<Gauge, Global>,
}

impl<I: Source> Noticed<I> {
    /// A reader that was not read yet.
    pub(crate) fn new(inner: I, gauge: Arc<Gauge, Global>) -> Noticed<I> {
        Noticed { inner, gauge }
    }
}

impl<I: Source> Source for Noticed<I> {
    ghost remaining = { λ n. I.remaining n.inner };

    ghost EndsWithin = { λ n count. I.EndsWithin n.inner count };

    ghost some_read = { λ n ends. I.some_read n.inner ends };

    fn read_piece(&mut self, buf: &mut [u8]) -> IoResult<usize> {
        self.gauge.is_read.store(true, Ordering::SeqCst);
        self.inner.read_piece(buf)
    }
}
