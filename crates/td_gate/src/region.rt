// A region behind a gate: the three steps that replace its payload, each a write and a sync, and reading it. No clause counts a
// disk's calls: fuses test how many a step has, and `tests/put_calls.py` counts them on a real file.
ghost use Rattle.std.specs.Prelude.{◌≡◌, ◌+◌, ◌≤◌, false, length, OnOk, IfOk, IfErr, take};
ghost use Rattle.td_disk.specs.Calls.{Calls, IsKept, HasFailed};
ghost use Rattle.td_gate.specs.States.{closed_region, closed_disk, filled_region, filled_disk};
ghost use Rattle.td_gate.specs.Steps.{ClosesSafely, LeavesClosed, ClosesGate, ReadsClosed, IsShut, ChangesOnly, FillsSafely, LeavesFilled, OpensSafely, OpensFilled, PutsSafely, LeavesOpen, LeavesOldOrNew, KeepsOthers, LeavesDurable, StaysDurable, IsFound, IsInEachImage};
ghost use Rattle.td_disk.specs.Disk.{bytes_at, SameOutside, IsDurable, CountsDevice, CountsFailures};
ghost use Rattle.td_gate.specs.CrashSafe.{CrashSafe};
ghost use Rattle.td_gate.specs.Reads.{IsRead};
ghost use Rattle.td_gate.specs.Region.{is_open_in, opened, opened_start, payload_of, payload_in, HasLength};

use crate::error::GateError;
use std::alloc::Global;
use td_disk::{Disk, Fault};

/// The gate byte of an open region. Any other value is closed.
pub const OPEN: u8 = 0xA5;

/// What is written to a gate to close it.
const CLOSED: u8 = 0;

/// A payload of `len` bytes at the offset `at`, and one gate byte behind it.
#[derive(Clone, Copy, Debug, PartialEq, Eq)]
pub struct Region {
    pub at: u64,
    pub len: u64,
}

/// A region whose gate is closed, with its disk, which nobody else can use.
///
/// A step that fails hands the disk back beside its refusal. A clause on what a lent disk ends with gets no proof where the
/// lender is a type parameter's `&mut D`. A caller binds it by a name, as `_device`, and by a `match`: the borrow checker does
/// not cover `_` or `map_err` there.
#[derive(Drop)]
pub struct Closed<'a, D: Disk> {
    region: Region,
    device: &'a mut D,
}

/// A region with a new payload before its closed gate, with its disk, which nobody else can use.
#[derive(Drop)]
pub struct Filled<'a, D: Disk> {
    region: Region,
    device: &'a mut D,
}

/// Closes the gate where it reads open, by a write and a sync.
fn close_gate<D: Disk>(region: Region, device: &mut D) -> Result<(), Fault>
    requires { region.at + region.len + 1 ≤ (D.view device.old).capacity }
    ensures device { Calls D.view result device.old device.new }
    ensures crash_safe { ClosesSafely D.view region device.old device.new }
    ensures closed { OnOk result (LeavesClosed D.view region device.old device.new) }
    ensures gate { OnOk result (ClosesGate D.view region device.old device.new) }
    ensures durable { OnOk result (StaysDurable D.view device.old device.new) }
{
    if region.close_if_open(device)? {
        device.sync()?;
    }
    Ok(())
}

/// Writes a payload before a closed gate.
fn fill_payload<D: Disk>(region: Region, device: &mut D, payload: &[u8]) -> Result<(), Fault>
    requires room { region.at + region.len + 1 ≤ (D.view device.old).capacity }
    requires len { length payload.now ≡ region.len }
    ensures device { Calls D.view result device.old device.new }
    ensures crash_safe { FillsSafely D.view region device.old device.new }
    ensures filled { OnOk result (LeavesFilled D.view region payload.now device.old device.new) }
{
    write_and_sync(device, region.at, payload)
}

impl Region {
    /// Closes the gate where it reads open, by a write and a sync. A gate that reads closed is not
    /// written: torn, that write could read open over a torn payload. It refuses `Device` alone,
    /// and then hands the disk back.
    pub fn close<'a, D: Disk>(&self, device: &'a mut D) -> Result<Closed<'a, D>, (Fault, &'a mut D)>
        requires { self.now.at + self.now.len + 1 ≤ (D.view device.old).capacity }
        ensures same_reference { IfOk result (λ closed. (closed_disk closed).ghost_name ≡ device.entry.ghost_name) }
        ensures same_back { IfErr result (λ back. back.1.ghost_name ≡ device.entry.ghost_name) }
        ensures region { IfOk result (λ closed. closed_region closed ≡ self.now) }
        ensures kept { IfOk result (λ closed. IsKept D.view device.old (closed_disk closed).now) }
        ensures failed { IfErr result (λ back. HasFailed D.view device.old back.1.now) }
        ensures crash_safe { IfOk result (λ closed. ClosesSafely D.view self.now device.old (closed_disk closed).now) }
        ensures crash_safe_back { IfErr result (λ back. ClosesSafely D.view self.now device.old back.1.now) }
        ensures closed { IfOk result (λ closed. LeavesClosed D.view self.now device.old (closed_disk closed).now) }
        ensures gate { IfOk result (λ closed. ClosesGate D.view self.now device.old (closed_disk closed).now) }
    {
        let region = *self;
        match close_gate(region, device) {
            Ok(()) => Ok(Closed { region, device }),
            Err(fault) => Err((fault, device)),
        }
    }

    /// Closes the gate as `close` does, for good: no payload is to follow, and no state is handed on. It refuses `Device` alone.
    /// It is a call of its own, since what the disk is after a state was dropped could not be said by `close`.
    pub fn shut<D: Disk>(&self, device: &mut D) -> Result<(), Fault>
        requires { self.now.at + self.now.len + 1 ≤ (D.view device.old).capacity }
        ensures device { Calls D.view result device.old device.new }
        ensures crash_safe { ClosesSafely D.view self.now device.old device.new }
        ensures closed { OnOk result (LeavesClosed D.view self.now device.old device.new) }
        ensures gate { OnOk result (ClosesGate D.view self.now device.old device.new) }
        ensures durable { OnOk result (StaysDurable D.view device.old device.new) }
    {
        close_gate(*self, device)
    }

    /// Whether the gate is open. It refuses `Device` alone.
    pub fn is_open<D: Disk>(&self, device: &mut D) -> Result<bool, Fault>
        requires { self.now.at + self.now.len + 1 ≤ (D.view device.old).capacity }
        ensures open { IfOk result (λ is. IsFound D.view (is_open_in self.now) is device.old) }
        ensures failures { CountsFailures result (D.view device.old).failures (D.view device.new).failures }
        ensures read { IsRead D.view device.old device.new }
    {
        // The answer fits a u64, and so each sum of places on the disk does.
        let _size = device.size();
        let mut gate = [0];
        device.read(self.at + self.len, &mut gate)?;
        Ok(gate[0] == OPEN)
    }

    /// Closes the gate where it reads open, with no sync, and answers whether it did. A gate that reads closed is not
    /// written: torn, that write could read open over a torn payload. It refuses `Device` alone.
    pub fn close_if_open<D: Disk>(&self, device: &mut D) -> Result<bool, Fault>
        requires { self.now.at + self.now.len + 1 ≤ (D.view device.old).capacity }
        ensures device { Calls D.view result device.old device.new }
        ensures crash_safe { ClosesSafely D.view self.now device.old device.new }
        ensures others { ChangesOnly D.view self.now.at (self.now.len + 1) device.old device.new }
        ensures gate { OnOk result (ClosesGate D.view self.now device.old device.new) }
        ensures closed { OnOk result (ReadsClosed D.view self.now device.old device.new) }

        // One that is closed is not written, and nothing then.
        ensures unwritten { IfOk result (λ wrote. wrote ≡ false → IsRead D.view device.old device.new) }
        ensures needless { IfOk result (λ wrote. IsShut D.view self.now device.old → wrote ≡ false) }
        ensures idle { IsShut D.view self.now device.old → IsRead D.view device.old device.new }
    {
        // As in `is_open`.
        let _size = device.size();
        if !self.is_open(device)? {
            return Ok(false);
        }
        device.write(self.at + self.len, &[CLOSED])?;
        Ok(true)
    }

    /// Opens the gate, by a write and a sync, so that what stands before it counts: where every image has the gate closed and this
    /// payload before it, a crash leaves the region closed or open with the payload. It refuses `Device` alone.
    pub fn uncover<D: Disk>(&self, device: &mut D) -> Result<(), Fault>
        requires room { self.now.at + self.now.len + 1 ≤ (D.view device.old).capacity }
        ensures device { Calls D.view result device.old device.new }
        ensures crash_safe { OpensSafely D.view self.now device.old device.new }
        ensures open { OnOk result (OpensFilled D.view self.now device.old device.new) }
        ensures durable { OnOk result (LeavesDurable D.view device.old device.new) }
    {
        // The answer fits a u64, and so does the place of the gate.
        let _size = device.size();
        write_and_sync(device, self.at + self.len, &[OPEN])
    }

    /// Puts a payload in the place of the one that is there: six writes and syncs into an open
    /// region, four into a closed one. On a settled region of a lawful disk a crash at any moment of
    /// the call leaves the old payload, none, or the new one, and no other byte changes. It refuses
    /// `Device` alone.
    ///
    /// Of a region that is not settled nothing is promised but size, failures and lawfulness. After a failed put it is not
    /// settled, and a sync that succeeds settles every region. So after a put that succeeded the disk is durable in either case.
    pub fn put<D: Disk>(&self, device: &mut D, payload: &[u8]) -> Result<(), Fault>
        requires room { self.now.at + self.now.len + 1 ≤ (D.view device.old).capacity }
        requires len { length payload.now ≡ self.now.len }
        ensures device { Calls D.view result device.old device.new }

        // Each image since the start of the call, by the image before from which it came.
        ensures crash_safe { PutsSafely D.view self.now payload.now device.old device.new }

        // In each of them this region is as it was read, closed, or open with the new payload,
        ensures region { LeavesOldOrNew D.view self.now payload.now device.old device.new }

        // and each other settled region is as it was.
        ensures others { KeepsOthers D.view self.now device.old device.new }

        ensures open { OnOk result (LeavesOpen D.view self.now payload.now device.old device.new) }

        // Whether the region was settled or not, a crash then leaves what is read.
        ensures durable { OnOk result (LeavesDurable D.view device.old device.new) }
    {
        self.close_fill_open(device, payload)
    }

    /// The three steps of a put. They stand apart from `put` since its clauses on every image and
    /// on other regions follow from those here.
    fn close_fill_open<D: Disk>(&self, device: &mut D, payload: &[u8]) -> Result<(), Fault>
        requires room { self.now.at + self.now.len + 1 ≤ (D.view device.old).capacity }
        requires len { length payload.now ≡ self.now.len }
        ensures device { Calls D.view result device.old device.new }
        ensures crash_safe { PutsSafely D.view self.now payload.now device.old device.new }
        ensures open { OnOk result (LeavesOpen D.view self.now payload.now device.old device.new) }
        ensures durable { OnOk result (LeavesDurable D.view device.old device.new) }
    {
        let closed = match self.close(device) {
            Ok(closed) => closed,
            Err((fault, _device)) => return Err(fault),
        };
        let filled = match closed.fill(payload) {
            Ok(filled) => filled,
            Err((fault, _device)) => return Err(fault),
        };
        match filled.open() {
            Ok(_device) => Ok(()),
            Err((fault, _device)) => Err(fault),
        }
    }
}

impl<'a, D: Disk> Closed<'a, D> {
    /// Writes the payload before the closed gate, by a write and a sync. It refuses `Device` alone,
    /// and then hands the disk back.
    pub fn fill(self, payload: &[u8]) -> Result<Filled<'a, D>, (Fault, &'a mut D)>
        requires room { (closed_region self).at + (closed_region self).len + 1 ≤ (D.view (closed_disk self).now).capacity }
        requires len { length payload.now ≡ (closed_region self).len }
        ensures same_reference { IfOk result (λ filled. (filled_disk filled).ghost_name ≡ (closed_disk self.entry).ghost_name) }
        ensures same_back { IfErr result (λ back. back.1.ghost_name ≡ (closed_disk self.entry).ghost_name) }
        ensures region { IfOk result (λ filled. filled_region filled ≡ closed_region self.entry) }
        ensures kept { IfOk result (λ filled. IsKept D.view (closed_disk self.entry).now (filled_disk filled).now) }
        ensures failed { IfErr result (λ back. HasFailed D.view (closed_disk self.entry).now back.1.now) }
        ensures crash_safe { IfOk result (λ f. FillsSafely D.view (closed_region self.entry) (closed_disk self.entry).now (filled_disk f).now) }
        ensures crash_safe_back { IfErr result (λ back. FillsSafely D.view (closed_region self.entry) (closed_disk self.entry).now back.1.now) }
        ensures filled { IfOk result (λ f. LeavesFilled D.view (closed_region self.entry) payload.now (closed_disk self.entry).now (filled_disk f).now) }
    {
        let Closed { region, device } = self;
        match fill_payload(region, device, payload) {
            Ok(()) => Ok(Filled { region, device }),
            Err(fault) => Err((fault, device)),
        }
    }
}

impl<'a, D: Disk> Filled<'a, D> {
    /// Opens the gate, by a write and a sync, and hands the disk back. It refuses `Device` alone.
    pub fn open(self) -> Result<&'a mut D, (Fault, &'a mut D)>
        requires room { (filled_region self).at + (filled_region self).len + 1 ≤ (D.view (filled_disk self).now).capacity }
        ensures same_reference { IfOk result (λ back. back.ghost_name ≡ (filled_disk self.entry).ghost_name) }
        ensures same_back { IfErr result (λ back. back.1.ghost_name ≡ (filled_disk self.entry).ghost_name) }
        ensures kept { IfOk result (λ back. IsKept D.view (filled_disk self.entry).now back.now) }
        ensures failed { IfErr result (λ back. HasFailed D.view (filled_disk self.entry).now back.1.now) }
        ensures crash_safe { IfOk result (λ back. OpensSafely D.view (filled_region self.entry) (filled_disk self.entry).now back.now) }
        ensures crash_safe_back { IfErr result (λ back. OpensSafely D.view (filled_region self.entry) (filled_disk self.entry).now back.1.now) }
        ensures open { IfOk result (λ back. OpensFilled D.view (filled_region self.entry) (filled_disk self.entry).now back.now) }
        ensures durable { IfOk result (λ back. LeavesDurable D.view (filled_disk self.entry).now back.now) }
    {
        let Filled { region, device } = self;
        match region.uncover(device) {
            Ok(()) => Ok(device),
            Err(fault) => Err((fault, device)),
        }
    }
}

/// A write and a sync: until the sync succeeds a crash may leave any bytes in the range.
pub(crate) fn write_and_sync<D: Disk>(device: &mut D, at: u64, bytes: &[u8]) -> Result<(), Fault>
    requires { at + length bytes.now ≤ (D.view device.old).capacity }
    ensures device { Calls D.view result device.old device.new }
    ensures crash_safe { (D.view device.old).lawful
        → CrashSafe (SameOutside at (length bytes.now)) (D.view device.old).state (D.view device.new).state }
    ensures durable { OnOk result ((D.view device.old).lawful → IsDurable (D.view device.new).state) }
    ensures written { OnOk result ((D.view device.old).lawful
        → bytes_at at (length bytes.now) (D.view device.new).state.bytes ≡ bytes.now) }
{
    device.write(at, bytes)?;
    device.sync()
}

impl Region {
    /// The payload where the gate is open, else `None`. It refuses `Device` and `Memory`.
    pub fn get<D: Disk>(&self, alloc: Global, device: &mut D) -> Result<Option<Vec<u8>>, GateError>
        requires { self.now.at + self.now.len + 1 ≤ (D.view device.old).capacity }
        ensures found { IfOk result (λ found. IsFound D.view (opened self.now) (payload_of found) device.old) }

        // Whatever the disk, also one that is not lawful.
        ensures len { IfOk result (λ found. HasLength found self.now.len) }

        ensures every { IfOk result (λ found. IsInEachImage D.view self.now (opened self.now) (payload_of found) device.old) }
        ensures failures { CountsDevice result GateError.Device (D.view device.old).failures (D.view device.new).failures }
        ensures read { IsRead D.view device.old device.new }
    {
        self.start_if_open(alloc, device, self.len)
    }

    /// Whether the gate is open; where it is, `bytes` begins with the payload. It has the region's length and one byte more, for the
    /// gate, so that one call of the disk reads both. It takes no memory: one region after another is read with that of one. It
    /// refuses `Device`.
    pub fn get_into<D: Disk>(&self, device: &mut D, bytes: &mut [u8]) -> Result<bool, Fault>
        requires room { self.now.at + self.now.len + 1 ≤ (D.view device.old).capacity }
        requires len { length bytes.old ≡ self.now.len + 1 }
        ensures found { IfOk result (λ is. IsFound D.view (opened self.now) (payload_in is (take self.now.len bytes.new)) device.old) }
        ensures failures { CountsFailures result (D.view device.old).failures (D.view device.new).failures }
        ensures read { IsRead D.view device.old device.new }
    {
        device.read(self.at, bytes)?;
        Ok(bytes[self.len as usize] == OPEN)
    }

    /// The first `count` bytes of the payload where the gate is open, else `None`: for a header
    /// that is wanted without what follows it. It refuses `Device` and `Memory`.
    pub fn get_start<D: Disk>(
        &self,
        alloc: Global,
        device: &mut D,
        count: u64,
    ) -> Result<Option<Vec<u8>>, GateError>
        requires room { self.now.at + self.now.len + 1 ≤ (D.view device.old).capacity }
        requires count { count ≤ self.now.len }
        ensures found { IfOk result (λ found. IsFound D.view (opened_start count self.now) (payload_of found) device.old) }
        ensures len { IfOk result (λ found. HasLength found count) }
        ensures every { IfOk result (λ found. IsInEachImage D.view self.now (opened_start count self.now) (payload_of found) device.old) }
        ensures failures { CountsDevice result GateError.Device (D.view device.old).failures (D.view device.new).failures }
        ensures read { IsRead D.view device.old device.new }
    {
        self.start_if_open(alloc, device, count)
    }

    /// Reads the gate, and the first bytes of the payload where it is open. It stands apart since
    /// both reads are it; what holds of every image is proved of each by its clause `found`.
    fn start_if_open<D: Disk>(
        &self,
        alloc: Global,
        device: &mut D,
        count: u64,
    ) -> Result<Option<Vec<u8>>, GateError>
        requires room { self.now.at + self.now.len + 1 ≤ (D.view device.old).capacity }
        requires count { count ≤ self.now.len }
        ensures found { IfOk result (λ found. IsFound D.view (opened_start count self.now) (payload_of found) device.old) }
        ensures len { IfOk result (λ found. HasLength found count) }
        ensures failures { CountsDevice result GateError.Device (D.view device.old).failures (D.view device.new).failures }
        ensures read { IsRead D.view device.old device.new }
    {
        if !self.is_open(device)? {
            return Ok(None);
        }
        let mut payload = vec![in alloc; 0; count as usize]?;
        device.read(self.at, &mut payload)?;
        Ok(Some(payload))
    }
}
