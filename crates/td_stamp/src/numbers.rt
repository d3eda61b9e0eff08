//! Members as numbers in the same order, which are sorted faster: the value is in the low 32 bits, the key above it.
ghost use Rattle.std.specs.Prelude.{◌≡◌, IfSome};
ghost use Rattle.td_stamp.specs.Numbers.{rec_of_number, arrival_of_number, vertex_of_number, placed_rec_of_number};

use crate::values::{Arrival, Item, Rec};

/// How many values a number can have in its low bits, and how many of them are below 0.
const VALUES: u64 = 1 << 32;

const NEGATIVE: i64 = 1 << 31;

/// How many ports an arrival's number can tell apart.
const PORTS: u8 = 16;

/// How many vertices stand in a block, and how many keys the number of a record at one of them can have.
const BLOCK: u8 = 16;

const KEYS: u64 = 1 << 28;

/// The number of a record: its key is below 2^32 and its value fits an `i32`.
pub(crate) fn pack_rec(rec: &Rec) -> Option<u64>
    ensures { IfSome result (λ n. rec_of_number n ≡ rec.now) }
{
    let key = u32::try_from(rec.key).ok()?;
    let val = i32::try_from(rec.val).ok()?;
    Some(u64::from(key) * VALUES + (i64::from(val) + NEGATIVE) as u64)
}

/// The record of a number.
pub(crate) fn unpack_rec(number: u64) -> Rec
    ensures { result ≡ rec_of_number number }
{
    Rec {
        key: number / VALUES,
        val: (number % VALUES) as i64 - NEGATIVE,
    }
}

/// The number of an arrival: its port is below 16, its key below 2^28, and its value fits an `i32`.
pub(crate) fn pack_arrival(arrival: &Arrival) -> Option<u64>
    ensures { IfSome result (λ n. arrival_of_number n ≡ arrival.now) }
{
    if arrival.item.port >= PORTS || arrival.key >= KEYS {
        return None;
    }
    pack_rec(&Rec {
        key: arrival.key * u64::from(PORTS) + u64::from(arrival.item.port),
        val: arrival.item.val,
    })
}

/// The arrival of a number.
pub(crate) fn unpack_arrival(number: u64) -> Arrival
    ensures { result ≡ arrival_of_number number }
{
    let Rec { key, val } = unpack_rec(number);
    Arrival {
        key: key / u64::from(PORTS),
        item: Item {
            port: (key % u64::from(PORTS)) as u8,
            val,
        },
    }
}

/// The number of a record at a vertex, beside a `first` one of the same block: its key is below 2^28, and its value fits
/// an `i32`.
pub(crate) fn pack_at(first: u8, vertex: u8, rec: &Rec) -> Option<u64>
    ensures vertex { IfSome result (λ n. vertex_of_number first n ≡ vertex) }
    ensures rec { IfSome result (λ n. placed_rec_of_number n ≡ rec.now) }
{
    if vertex / BLOCK != first / BLOCK || rec.key >= KEYS {
        return None;
    }
    pack_rec(&Rec {
        key: u64::from(vertex % BLOCK) * KEYS + rec.key,
        val: rec.val,
    })
}

/// The vertex and the record of a number, beside a `first` vertex.
pub(crate) fn unpack_at(first: u8, number: u64) -> (u8, Rec)
    ensures vertex { result.0 ≡ vertex_of_number first number }
    ensures rec { result.1 ≡ placed_rec_of_number number }
{
    let Rec { key, val } = unpack_rec(number);
    let vertex = first / BLOCK * BLOCK + (key / KEYS) as u8;
    let rec = Rec {
        key: key % KEYS,
        val,
    };
    (vertex, rec)
}
