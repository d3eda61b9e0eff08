// Two slots.
ghost use Rattle.std.specs.Prelude.{◌≡◌, ◌+◌, ◌-◌, ◌*◌, ◌^◌, ◌<◌, ◌≤◌, IfOk, IfErr};
ghost use Rattle.td_disk.specs.Calls.{KeepsDevice};
ghost use Rattle.td_disk.specs.Disk.{CountsDevice};
ghost use Rattle.td_gate.specs.Reads.{IsRead};
ghost use Rattle.td_gate.specs.Region.{opened, payload_of, HasLength};
ghost use Rattle.td_gate.specs.Steps.{IsFound};
ghost use Rattle.td_slots.specs.Slot.{slot, slot_len};
ghost use Rattle.td_slots.specs.SlotsError.{IsFailureOr};
ghost use Rattle.td_slots.specs.Parsed.{newer_of, chosen_of, AtLeast, IsValid, IsDamaged, Told};
ghost use Rattle.td_slots.specs.Steps.{HasSlots, MayBeHeld, SlotsTell, SlotsRefuse, PutsStates, RefusesStates, StatesFit};

use crate::error::SlotsError;
use crate::payload::{STATE_LEN, is_slot, slot_payload, states_of};
use std::alloc::Global;
use td_disk::Disk;
use td_gate::Region;
use td_gate::fields::{FRONT_LEN, Front};
use td_stamp::OrderedStates;

/// A checkpoint: the slot in which it stands, its epoch, the greatest request number of the epochs up to it (0 for none), and the
/// kept states after it. It is also the definition's answer, so the clause of `newest` is one equation.
#[derive(Debug, Drop)]
pub struct Checkpoint {
    pub slot: u8,
    pub epoch: u64,
    pub last: u64,
    pub states: OrderedStates,
}

/// Two slots from the offset `at` on, each for at most `k` states.
#[derive(Clone, Copy, Debug, PartialEq, Eq)]
pub struct Slots {
    pub at: u64,
    pub k: u32,
}

/// The payload with the greater epoch, the first on a tie, and the slot in which it stands.
fn newer(first: Option<Vec<u8>>, second: Option<Vec<u8>>) -> Option<(u8, Vec<u8>)>
    requires first { AtLeast 24 first }
    requires second { AtLeast 24 second }
    ensures { chosen_of result ≡ newer_of (payload_of first) (payload_of second) }
{
    let Some(first) = first else {
        return second.map(|second| (1, second));
    };
    let Some(second) = second else {
        return Some((0, first));
    };
    if Front::read(&first).epoch < Front::read(&second).epoch {
        Some((1, second))
    } else {
        Some((0, first))
    }
}

impl Slots {
    /// A slot.
    pub(crate) fn slot(&self, side: u8) -> Region
        requires which { side ≤ 1 }
        requires slots { HasSlots self.now (2 ^ 64) }
        ensures region { result ≡ slot self.now side }
        ensures within { result.at + result.len + 1 ≤ self.now.at + 2 * (slot_len self.now.k + 1) }
    {
        let len = (FRONT_LEN + STATE_LEN * self.k as usize) as u64;
        Region {
            at: self.at + u64::from(side) * (len + 1),
            len,
        }
    }

    /// Puts the states after an epoch, and the greatest request number of the epochs up to it (0 for none), into the
    /// slot that is not the newest. It refuses `TooManyKeys` where there are more states than a slot holds, then
    /// `Memory`, and in both cases has written nothing; then `Device`.
    ///
    /// Any epoch may be put, also one that is not greater: slot 0 counts on a tie (`after_write`). Any request number may be put;
    /// that it is 0 in version 1 is the caller's part.
    pub fn write<D: Disk>(
        &self,
        alloc: Global,
        device: &mut D,
        newest: u8,
        epoch: u64,
        last: u64,
        states: &OrderedStates,
    ) -> Result<(), SlotsError>
        requires slots { HasSlots self.now (D.view device.old).capacity }
        requires which { newest ≤ 1 }
        ensures refused { RefusesStates self.now.k states.now result device.old device.new }
        ensures device { KeepsDevice D.view SlotsError.Device result device.old device.new }
        ensures fits { StatesFit self.now.k states.now result }
        ensures put { PutsStates D.view self.now newest epoch last states.now result device.old device.new }
    {
        if (self.k as usize) < states.len() {
            return Err(SlotsError::TooManyKeys);
        }
        // The answer fits a u64, and so do the places of the slots.
        let _size = device.size();
        let payload = slot_payload(alloc, self.k, epoch, last, states)?;
        self.slot(1 - newest).put(device, &payload)?;
        Ok(())
    }

    /// The payload of a slot, where it is open. It refuses `Damaged` where that is open and not valid, `Device` and
    /// `Memory`.
    fn valid_payload<D: Disk>(
        &self,
        alloc: Global,
        device: &mut D,
        version: u32,
        folds: &[u8],
        side: u8,
    ) -> Result<Option<Vec<u8>>, SlotsError>
        requires which { side ≤ 1 }
        requires slots { HasSlots self.now (D.view device.old).capacity }
        ensures found { IfOk result (λ p. IsFound D.view (opened (slot self.now side)) (payload_of p) device.old) }
        ensures valid { IfOk result (λ p. IsValid version folds.now self.now.k p) }
        ensures len { IfOk result (λ p. HasLength p (slot_len self.now.k)) }
        ensures refused { IfErr result (λ e. IsFailureOr ((D.view device.old).lawful
            → IsDamaged version folds.now self.now.k side (opened (slot self.now side) (D.view device.old).state.bytes) e) e) }
        ensures failures { CountsDevice result SlotsError.Device (D.view device.old).failures (D.view device.new).failures }
        ensures read { IsRead D.view device.old device.new }
    {
        // The answer fits a u64, and so do the places of the slots.
        let _size = device.size();
        let Some(payload) = self.slot(side).get(alloc, device)? else {
            return Ok(None);
        };
        if is_slot(version, folds, self.k, &payload) {
            Ok(Some(payload))
        } else {
            Err(SlotsError::Damaged(side))
        }
    }

    /// The newest checkpoint: that of the slot with the greater epoch, the first on a tie. It refuses `Damaged` of the
    /// lowest slot that is open and holds no states of these folds (before version 2 also where it has a request
    /// number), `NoSlot` where none is open, `Device` and `Memory`. It reads each slot once, and takes up the states of
    /// the newest alone.
    ///
    /// Both payloads are looked at before states are taken up, so it holds two payloads at most, or one and the states of it.
    /// `Damaged` and `NoSlot` are said of the bytes only where neither `Device` nor `Memory` came before.
    pub fn newest<D: Disk>(
        &self,
        alloc: Global,
        device: &mut D,
        version: u32,
        folds: &[u8],
    ) -> Result<Checkpoint, SlotsError>
        requires slots { HasSlots self.now (D.view device.old).capacity }
        ensures told { IfOk result (λ c. SlotsTell D.view version folds.now self.now (Told c) device.old) }
        ensures refused { IfErr result (λ e. SlotsRefuse D.view version folds.now self.now e device.old) }
        ensures may_be { IfOk result (λ c. MayBeHeld version folds.now c) }
        ensures failures { CountsDevice result SlotsError.Device (D.view device.old).failures (D.view device.new).failures }
        ensures read { IsRead D.view device.old device.new }
    {
        td_gate::laws::reads_in_turn::<D>();
        let first = self.valid_payload(alloc, device, version, folds, 0)?;
        let second = self.valid_payload(alloc, device, version, folds, 1)?;
        let Some((slot, payload)) = newer(first, second) else {
            return Err(SlotsError::NoSlot);
        };
        let front = Front::read(&payload);
        Ok(Checkpoint {
            slot,
            epoch: front.epoch,
            last: front.request,
            states: states_of(alloc, folds, &payload)?,
        })
    }
}
