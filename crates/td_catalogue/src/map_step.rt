//! The maps of the second shelf: which one a code is, and what it sends.
//!
//! A parameter that divides stands for 1,000 where it is 0: so nothing is divided by 0, and 1,000 has a code. Division and
//! remainder round down, below 0 too, as time and money need it: second -1 is in minute -1.
ghost use Rattle.std.specs.Prelude.{◌≡◌, ◌/◌, ◌%◌, ◌*ℤ◌, pos};
ghost use Rattle.std.specs.Int.{saturate_signed, w64};
ghost use Rattle.td_calls.specs.Stock.{saturating_add};
ghost use Rattle.td_catalogue.specs.Maps.{map_of, map_sent};

use crate::values::{divisor, record_if, single};
use td_stamp::{Few, Rec};

/// A map.
#[derive(Clone, Copy, Debug, PartialEq, Eq)]
pub enum MapStep {
    /// The value, under the key P.
    ConstantKey(u16),
    /// The value, under the key divided by P and rounded down; by 1,000 where P is 0.
    KeyDivided(u16),
    /// The value, under the key modulo P; modulo 1,000 where P is 0.
    KeyModulo(u16),
    /// The value modulo P, from 0 to P - 1; modulo 1,000 where P is 0.
    ValueModulo(u16),
    /// The record where its value is above P, else nothing.
    Above(u16),
    /// The record where its value is below P, else nothing.
    Below(u16),
    /// The record where its value is P, else nothing.
    Equal(u16),
    /// The value divided by P and rounded down, below 0 too; by 1,000 where P is 0.
    ValueDivided(u16),
    /// The key as the value, under the value as the key: from 2^63 on a key is the value 2^64 below it.
    Exchanged,
    /// The value with the other sign; of the least value the greatest.
    Negated,
    /// The value without its sign; of the least value the greatest.
    Absolute,
    /// The value times 1,000,000, and the key modulo 1,000,000 added to it.
    Packed,
    /// What was packed: the value divided by 1,000,000, under the key that is the rest.
    Unpacked,
    /// The key as the value, under the key.
    KeyAsValue,
}

impl MapStep {
    /// The map of this code, if the second shelf has one.
    pub fn of(code: u16) -> Option<MapStep>
        ensures { result ≡ map_of code }
    {
        let p = code % 1000;
        match code / 1000 {
            1 => Some(MapStep::ConstantKey(p)),
            2 => Some(MapStep::KeyDivided(p)),
            3 => Some(MapStep::KeyModulo(p)),
            4 => Some(MapStep::ValueModulo(p)),
            5 => Some(MapStep::Above(p)),
            6 => Some(MapStep::Below(p)),
            7 => Some(MapStep::Equal(p)),
            8 => Some(MapStep::ValueDivided(p)),
            9 => plain(code),
            _ => None,
        }
    }

    /// What it sends of a record.
    pub fn sent(self, rec: Rec) -> Few
        ensures { result.items ≡ map_sent self rec }
    {
        match self {
            MapStep::ConstantKey(p) => single(u64::from(p), rec.val),
            MapStep::KeyDivided(p) => single(rec.key / u64::from(divisor(p)), rec.val),
            MapStep::KeyModulo(p) => single(rec.key % u64::from(divisor(p)), rec.val),
            MapStep::ValueModulo(p) => {
                single(rec.key, rec.val.rem_euclid(i64::from(divisor(p))))
            }
            MapStep::Above(p) => record_if(rec.val > i64::from(p), rec),
            MapStep::Below(p) => record_if(rec.val < i64::from(p), rec),
            MapStep::Equal(p) => record_if(rec.val == i64::from(p), rec),
            MapStep::ValueDivided(p) => {
                single(rec.key, rec.val.div_euclid(i64::from(divisor(p))))
            }
            // Bit by bit: nothing is lost at either end, and exchanging twice gives the record back.
            MapStep::Exchanged => single(rec.val.cast_unsigned(), rec.key.cast_signed()),
            MapStep::Negated => single(rec.key, rec.val.saturating_neg()),
            MapStep::Absolute => single(rec.key, rec.val.saturating_abs()),
            MapStep::Packed => single(rec.key, packed(rec)),
            MapStep::Unpacked => unpacked(rec),
            MapStep::KeyAsValue => single(rec.key, rec.key.cast_signed()),
        }
    }
}

/// The map of a code without a parameter.
fn plain(code: u16) -> Option<MapStep>
    requires { code / 1000 ≡ 9 }
    ensures { result ≡ map_of code }
{
    match code {
        9000 => Some(MapStep::Exchanged),
        9001 => Some(MapStep::Negated),
        9002 => Some(MapStep::Absolute),
        9003 => Some(MapStep::Packed),
        9004 => Some(MapStep::Unpacked),
        9005 => Some(MapStep::KeyAsValue),
        _ => None,
    }
}

/// The value and the key in one value.
fn packed(rec: Rec) -> i64
    ensures { result ≡ saturating_add (saturate_signed w64 (rec.val *ℤ pos 1000000)) (pos (rec.key % 1000000)) }
{
    let high = rec.val.saturating_mul(1_000_000);
    high.saturating_add((rec.key % 1_000_000) as i64)
}

/// The value and the key that were packed.
fn unpacked(rec: Rec) -> Few
    ensures { result.items ≡ map_sent MapStep.Unpacked rec }
{
    let key = rec.val.rem_euclid(1_000_000).cast_unsigned();
    single(key, rec.val.div_euclid(1_000_000))
}
