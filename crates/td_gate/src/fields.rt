//! Numbers in a payload, as each part of a disk spells them: big endian, and an i64 in two's complement.
//!
//! They stand here since each part of a disk needs them. A list's front is one struct, and definitions take that struct itself.
ghost use Rattle.std.specs.Prelude.{◌≡◌, ◌==◌, ◌+◌, ◌≤◌, ◌++◌, true, false, length, OnOk, IfSome, IfNone};
ghost use Rattle.std.specs.List.{list_any};
ghost use Rattle.td_gate.specs.Fields.{number_at, number_bytes, signed_at, signed_bytes};
ghost use Rattle.td_gate.specs.Fields.{front_bytes, front_in, front_len, is_plain};

use byteorder::{BigEndian, ByteOrder};
use std::alloc::AllocError;

/// How many bytes a front has.
pub const FRONT_LEN: usize = 24;

/// What a list of entries on a disk begins with: the epoch, a request number (0 for none), how many entries follow, and
/// a field that is 0.
#[derive(Clone, Copy, Debug, PartialEq, Eq)]
pub struct Front {
    pub epoch: u64,
    pub request: u64,
    pub count: u32,
    pub zeros: u32,
}

impl Front {
    /// The front of a payload.
    pub fn read(payload: &[u8]) -> Front
        requires { front_len ≤ length payload.now }
        ensures { result ≡ front_in payload.now }
    {
        Front {
            epoch: u64_at(payload, 0),
            request: u64_at(payload, 8),
            count: u32_at(payload, 16),
            zeros: u32_at(payload, 20),
        }
    }

    /// Whether at most so many entries follow, and the last field is 0.
    pub fn is_plain(&self, most: u32) -> bool
        ensures { result ≡ is_plain most self.now }
    {
        self.zeros == 0 && self.count <= most
    }

    /// Puts the bytes of a front at the end. It refuses want of memory alone.
    pub fn push(&self, payload: &mut Vec<u8>) -> Result<(), AllocError>
        ensures { OnOk result (payload.new.items ≡ payload.old.items ++ front_bytes self.now) }
    {
        push_u64(payload, self.epoch)?;
        push_u64(payload, self.request)?;
        push_u32(payload, self.count)?;
        push_u32(payload, self.zeros)
    }
}

/// The number in the eight bytes from a place on.
#[tactic(auto, unfolding(crate::specs::Fields::number_at))]
pub fn u64_at(payload: &[u8], at: usize) -> u64
    requires { at + 8 ≤ length payload.now }
    ensures { result ≡ number_at 8 at payload.now }
{
    BigEndian::read_u64(&payload[at..])
}

/// The number in the four bytes from a place on.
#[tactic(auto, unfolding(crate::specs::Fields::number_at))]
pub fn u32_at(payload: &[u8], at: usize) -> u32
    requires { at + 4 ≤ length payload.now }
    ensures { result ≡ number_at 4 at payload.now }
{
    BigEndian::read_u32(&payload[at..])
}

/// The signed number in the eight bytes from a place on.
pub fn i64_at(payload: &[u8], at: usize) -> i64
    requires { at + 8 ≤ length payload.now }
    ensures { result ≡ signed_at at payload.now }
{
    u64_at(payload, at).cast_signed()
}

/// Puts the eight bytes of a number at the end. It refuses want of memory alone.
#[tactic(auto, unfolding(crate::specs::Fields::number_bytes))]
pub fn push_u64(payload: &mut Vec<u8>, number: u64) -> Result<(), AllocError>
    ensures { OnOk result (payload.new.items ≡ payload.old.items ++ number_bytes 8 number) }
{
    let mut bytes = [0; 8];
    BigEndian::write_u64(&mut bytes, number);
    payload.extend_from_slice(&bytes)
}

/// Puts the four bytes of a number at the end. It refuses want of memory alone.
#[tactic(auto, unfolding(crate::specs::Fields::number_bytes))]
pub fn push_u32(payload: &mut Vec<u8>, number: u32) -> Result<(), AllocError>
    ensures { OnOk result (payload.new.items ≡ payload.old.items ++ number_bytes 4 number) }
{
    let mut bytes = [0; 4];
    BigEndian::write_u32(&mut bytes, number);
    payload.extend_from_slice(&bytes)
}

/// Puts the eight bytes of a signed number at the end. It refuses want of memory alone.
#[tactic(auto, unfolding(crate::specs::Fields::number_bytes))]
pub fn push_i64(payload: &mut Vec<u8>, number: i64) -> Result<(), AllocError>
    ensures { OnOk result (payload.new.items ≡ payload.old.items ++ signed_bytes number) }
{
    let mut bytes = [0; 8];
    BigEndian::write_i64(&mut bytes, number);
    payload.extend_from_slice(&bytes)
}

/// The one of these numbers that a payload names, if it names one of them.
pub fn named(numbers: &[u8], number: u64) -> Option<u8>
    ensures some { IfSome result (λ one. one ≡ number) }
    ensures named { IfSome result (λ one. list_any (λ v. v == number) numbers.now ≡ true) }
    ensures none { IfNone result (list_any (λ v. v == number) numbers.now ≡ false) }
{
    for one in numbers {
        if u64::from(*one) == number {
            return Some(*one);
        }
    }
    None
}
