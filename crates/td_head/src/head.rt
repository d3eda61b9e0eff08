// Reading the heads of a disk.
ghost use Rattle.std.specs.Prelude.{◌≡◌, ◌⊎◌, ◌≤◌, length, IfOk, IfErr, IfSome, Decides};
ghost use Rattle.td_disk.specs.Disk.{CountsDevice};
ghost use Rattle.td_gate.specs.Reads.{IsRead};
ghost use Rattle.td_gate.specs.Region.{opened, HasLength};
ghost use Rattle.td_head.specs.Head.{candidate, greater, fields_in, is_version, IsCanonical};
ghost use Rattle.td_head.specs.Layout.{head, size_of};
ghost use Rattle.td_head.specs.Read.{Headed, Refused, HeadsTell, HeadsRefuse, IsFieldsTold, fields_of, chosen_of};

use crate::error::HeadError;
use crate::shape::{HEADS_LEN, Shape, head_region};
use std::alloc::Global;
use td_disk::Disk;
use td_gate::fields::{u32_at, u64_at};
use td_plan::{Plan, PlanError};

/// What the heads of a disk tell: the format's version (1 or 2), which head says so (0 for head A, 1 for head B), its
/// generation (1 or more), and the shape of the disk.
#[derive(Clone, Copy, Debug, PartialEq, Eq)]
pub struct Head {
    pub version: u32,
    pub side: u8,
    pub generation: u64,
    pub shape: Shape,
}

/// Whether a text is the canonical one of a plan. It refuses `Memory` alone.
fn is_canonical(alloc: Global, text: &[u8]) -> Result<bool, HeadError>
    ensures ok { IfOk result (λ b. Decides b (IsCanonical text.now)) }
    ensures refusals { IfErr result (λ e. e ≡ HeadError.Memory) }
{
    td_plan::laws::one_answer();
    let Ok(spelled) = std::str::from_utf8(text) else {
        return Ok(false);
    };
    match Plan::read(alloc, spelled) {
        Ok(plan) => match plan.text() {
            Ok(again) => Ok(again.as_bytes() == text),
            Err(_) => Err(HeadError::Memory),
        },
        Err(refusal) => {
            let PlanError::Memory = refusal else {
                return Ok(false);
            };
            Err(HeadError::Memory)
        }
    }
}

/// Whether a disk of this version can be read.
fn can_read(version: u32) -> bool
    ensures { result ≡ is_version version }
{
    version == 1 || version == 2
}

/// What a head that counts tells for a plan, on a disk of this size. The text is parsed also where it is the plan's own: one that
/// is not canonical is damage, and only then is another plan's refused.
fn told(alloc: Global, plan: &Plan, size: u64, side: u8, payload: &[u8]) -> Result<Head, HeadError>
    requires { length payload.now ≡ 4128 }
    ensures told { IfOk result (λ h. IsFieldsTold plan.now size (fields_in side payload.now) (Headed h)) }
    ensures fits { IfOk result (λ h. size_of h.shape ≤ size) }
    ensures refused { IfErr result (λ e. (e ≡ HeadError.Memory)
        ⊎ IsFieldsTold plan.now size (fields_in side payload.now) (Refused e)) }
{
    td_plan::laws::one_answer();
    let version = u32_at(payload, 4);
    if !can_read(version) {
        return Err(HeadError::Damaged);
    }
    let generation = u64_at(payload, 8);
    if generation == 0 {
        return Err(HeadError::Damaged);
    }
    let Some(shape) = Shape::new(
        u32_at(payload, 16),
        u32_at(payload, 20),
        u32_at(payload, 24),
    ) else {
        return Err(HeadError::Damaged);
    };
    let len = u32_at(payload, 28);
    if 4096 < len {
        return Err(HeadError::Damaged);
    }
    let text = &payload[32..32 + len as usize];
    if !is_canonical(alloc, text)? {
        return Err(HeadError::Damaged);
    }
    if size < shape.bytes() {
        return Err(HeadError::Damaged);
    }
    let Ok(own) = plan.text() else {
        return Err(HeadError::Memory);
    };
    if text == own.as_bytes() {
        Ok(Head {
            version,
            side,
            generation,
            shape,
        })
    } else {
        Err(HeadError::WrongPlan)
    }
}

/// The payload of head A (side 0) or B (1), where it is open and begins as a head.
fn counted<D: Disk>(alloc: Global, device: &mut D, side: u8) -> Result<Option<Vec<u8>>, HeadError>
    requires which { side ≤ 1 }
    requires room { 8258 ≤ (D.view device.old).capacity }
    ensures told { IfOk result (λ p. (D.view device.old).lawful
        → candidate side (opened (head side) (D.view device.old).state.bytes) ≡ fields_of side p) }
    ensures len { IfOk result (λ p. HasLength p 4128) }
    ensures refusals { IfErr result (λ e. (e ≡ HeadError.Device) ⊎ (e ≡ HeadError.Memory)) }
    ensures failures { CountsDevice result HeadError.Device (D.view device.old).failures (D.view device.new).failures }
    ensures read { IsRead D.view device.old device.new }
{
    let head = head_region(side);
    let Some(payload) = head.get(alloc, device)? else {
        return Ok(None);
    };
    if payload.starts_with(b"TDFL") {
        Ok(Some(payload))
    } else {
        Ok(None)
    }
}

/// The payload with the greater generation, the first on a tie, and its side.
fn later(first: Option<Vec<u8>>, second: Option<Vec<u8>>) -> Option<(u8, Vec<u8>)>
    requires first { HasLength first 4128 }
    requires second { HasLength second 4128 }
    ensures greater { chosen_of result ≡ greater (fields_of 0 first) (fields_of 1 second) }
    ensures len { IfSome result (λ c. length c.1.items ≡ 4128) }
{
    let Some(first) = first else {
        return second.map(|second| (1, second));
    };
    let Some(second) = second else {
        return Some((0, first));
    };
    if u64_at(&first, 8) < u64_at(&second, 8) {
        Some((1, second))
    } else {
        Some((0, first))
    }
}

/// The head that a disk has for a plan. It refuses `NotFormatted`, `Damaged`, `WrongPlan`, `Device` and `Memory`. It
/// reads each head once.
pub fn read<D: Disk>(alloc: Global, device: &mut D, plan: &Plan) -> Result<Head, HeadError>
    ensures told { IfOk result (λ h. HeadsTell D.view plan.now (Headed h) device.old) }
    ensures fits { IfOk result (λ h. size_of h.shape ≤ (D.view device.old).capacity) }
    ensures refused { IfErr result (λ e. HeadsRefuse D.view plan.now e device.old) }
    ensures failures { CountsDevice result HeadError.Device (D.view device.old).failures (D.view device.new).failures }
    ensures read { IsRead D.view device.old device.new }
{
    td_plan::laws::one_answer();
    td_gate::laws::reads_in_turn::<D>();
    let size = device.size();
    if size < HEADS_LEN {
        return Err(HeadError::NotFormatted);
    }
    let first = counted(alloc, device, 0)?;
    let second = counted(alloc, device, 1)?;
    let Some((side, payload)) = later(first, second) else {
        return Err(HeadError::NotFormatted);
    };
    told(alloc, plan, size, side, &payload)
}
