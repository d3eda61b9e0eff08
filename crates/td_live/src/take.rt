// Reading a disk over and over, until readings agree.
ghost use Rattle.std.specs.Prelude.{◌≡◌, ◌≢◌, ◌+◌, ◌<◌, ◌≤◌, ◌↔◌, true, false, Ok, length, IfOk, OnOk, IsErrOf, IsTrue};
ghost use Rattle.td_disk.specs.Disk.{bytes_at, CountsDevice, CountsFailures};
ghost use Rattle.td_gate.specs.Reads.{IsRead};
ghost use Rattle.td_live.specs.Readings.{IsReading, LastReadings};
ghost use Rattle.td_live.specs.Snapshots.{bytes_of};

use crate::error::LiveError;
use crate::snapshot::Snapshot;
use std::alloc::Global;
use td_disk::{Disk, Fault};

/// How many readings, one after another, have to give the same bytes.
///
/// Of two that agree the second may still be torn: a cell that takes a new epoch between the read of its number and that of its gate gives
/// the number of the old epoch, and the gate of the new one. A third one reads that number again.
const ALIKE: u32 = 3;

/// How many bytes are read at once, at most.
const PIECE: usize = 1 << 16;

/// What a disk holds at a moment, as it is known by three readings, one after another, that gave the same bytes. It makes `most` readings
/// at most. It only reads, and takes no lock and no sync: so it can be done beside the process that writes the disk. It takes as much
/// memory as the disk has bytes.
///
/// Refusals: `Memory`, with the disk not called; `Device`, where a read failed; `Busy`, where no three readings one after another gave the
/// same bytes.
pub fn take_snapshot<D: Disk>(alloc: Global, disk: &mut D, most: u32) -> Result<Snapshot, LiveError>
    ensures read { IsRead D.view disk.old disk.new }
    ensures failures { CountsDevice result LiveError.Device (D.view disk.old).failures (D.view disk.new).failures }
    ensures size { IfOk result (λ s. length (bytes_of s) ≡ (D.view disk.old).capacity) }
    // THREE READINGS GAVE THESE BYTES, whatever the disk is, and whoever writes it.
    ensures alike { IfOk result (λ s. LastReadings D.read_gives 3 (bytes_of s) disk.new) }
    // A disk that nobody else writes is as it reads, and is never busy.
    ensures lawful { IfOk result (λ s. (D.view disk.old).lawful → bytes_of s ≡ (D.view disk.old).state.bytes) }
    ensures busy { IsErrOf result LiveError.Busy → (D.view disk.old).lawful → most < 3 }
{
    let mut bytes = vec![in alloc; 0; disk.size() as usize]?;
    let mut piece = vec![in alloc; 0; PIECE]?;
    if read_until_alike(disk, &mut bytes, &mut piece, most)? {
        Ok(Snapshot::of(bytes))
    } else {
        Err(LiveError::Busy)
    }
}

/// Reads a disk over and over, `most` times at most, until three readings one after another gave the same bytes; whether they did. Refusal:
/// `Device`.
fn read_until_alike<D: Disk>(
    disk: &mut D,
    bytes: &mut [u8],
    piece: &mut [u8],
    most: u32,
) -> Result<bool, Fault>
    requires size { length bytes.old ≡ (D.view disk.old).capacity }
    requires some { 0 < length piece.old }
    ensures read { IsRead D.view disk.old disk.new }
    ensures failures { CountsFailures result (D.view disk.old).failures (D.view disk.new).failures }
    ensures alike { IfOk result (λ is. is ≡ true → LastReadings D.read_gives 3 bytes.new disk.new) }
    ensures lawful { IfOk result (λ is. is ≡ true → (D.view disk.old).lawful → bytes.new ≡ (D.view disk.old).state.bytes) }
    ensures busy { IfOk result (λ is. is ≡ false → (D.view disk.old).lawful → most < 3) }
{
    td_gate::laws::reads_in_turn::<D>();
    let mut alike = 0;
    for _ in 0..most {
        alike = read_again(disk, bytes, piece, alike)?;
        if alike == ALIKE {
            return Ok(true);
        }
    }
    Ok(false)
}

/// One reading more; how many of the last ones gave the same bytes, of which there were `alike` before. Refusal: `Device`.
fn read_again<D: Disk>(
    disk: &mut D,
    bytes: &mut [u8],
    piece: &mut [u8],
    alike: u32,
) -> Result<u32, Fault>
    requires size { length bytes.old ≡ (D.view disk.old).capacity }
    requires some { 0 < length piece.old }
    requires few { alike < 3 }
    requires before { LastReadings D.read_gives alike bytes.old disk.old }
    ensures read { IsRead D.view disk.old disk.new }
    ensures failures { CountsFailures result (D.view disk.old).failures (D.view disk.new).failures }
    ensures alike { IfOk result (λ now. LastReadings D.read_gives now bytes.new disk.new) }
    ensures few { IfOk result (λ now. (0 < now) × (now ≤ 3)) }
    ensures lawful { OnOk result ((D.view disk.old).lawful → bytes.new ≡ (D.view disk.old).state.bytes) }
    ensures one_more { IfOk result (λ now. (D.view disk.old).lawful
        → (0 < alike → bytes.old ≡ (D.view disk.old).state.bytes) → now ≡ alike + 1) }
{
    let is_same = read_over(disk, bytes, piece)?;
    Ok(if is_same && alike > 0 { alike + 1 } else { 1 })
}

/// Reads a disk over what was read of it before, piece by piece; whether it gave the same bytes again. Refusal: `Device`.
fn read_over<D: Disk>(disk: &mut D, bytes: &mut [u8], piece: &mut [u8]) -> Result<bool, Fault>
    requires size { length bytes.old ≡ (D.view disk.old).capacity }
    requires some { 0 < length piece.old }
    ensures read { IsRead D.view disk.old disk.new }
    ensures failures { CountsFailures result (D.view disk.old).failures (D.view disk.new).failures }
    ensures reading { OnOk result (IsReading D.read_gives bytes.new disk.old disk.new) }
    ensures lawful { OnOk result ((D.view disk.old).lawful → bytes.new ≡ (D.view disk.old).state.bytes) }
    ensures same { IfOk result (λ is. is ≡ true → bytes.new ≡ bytes.old) }
    ensures other { IfOk result (λ is. is ≡ false → bytes.new ≢ bytes.old) }
{
    td_gate::laws::reads_in_turn::<D>();
    let mut is_same = true;
    let mut at = 0;
    while at < bytes.len() {
        let len = piece.len().min(bytes.len() - at);
        if !read_piece(disk, at as u64, &mut bytes[at..at + len], &mut piece[..len])? {
            is_same = false;
        }
        at += len;
    }
    Ok(is_same)
}

/// Reads a piece of a disk over what was read of it before, by way of one as long; whether it gave the same bytes again. Refusal: `Device`.
fn read_piece<D: Disk>(
    disk: &mut D,
    at: u64,
    bytes: &mut [u8],
    piece: &mut [u8],
) -> Result<bool, Fault>
    requires room { at + length bytes.old ≤ (D.view disk.old).capacity }
    requires len { length piece.old ≡ length bytes.old }
    ensures read { IsRead D.view disk.old disk.new }
    ensures failures { CountsFailures result (D.view disk.old).failures (D.view disk.new).failures }
    ensures gives { OnOk result (D.read_gives disk.old at bytes.new (Ok tt) disk.new) }
    ensures lawful { OnOk result ((D.view disk.old).lawful → bytes.new ≡ bytes_at at (length bytes.old) (D.view disk.old).state.bytes) }
    ensures same { IfOk result (λ is. is ≡ true → bytes.new ≡ bytes.old) }
    ensures other { IfOk result (λ is. is ≡ false → bytes.new ≢ bytes.old) }
{
    td_gate::laws::unchanged::<D>();
    disk.read(at, piece)?;
    let is_same = are_same(bytes, piece);
    bytes.copy_from_slice(piece);
    Ok(is_same)
}

/// Whether two pieces have the same bytes.
fn are_same(bytes: &[u8], others: &[u8]) -> bool
    ensures { IsTrue result ↔ bytes.now ≡ others.now }
{
    bytes == others
}
