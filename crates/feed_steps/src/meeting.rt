//! A map whose calls for two keys look for one another.
use std::sync::atomic::{AtomicBool, Ordering};
use td_calls::{Closures, Stock, stock};
use td_stamp::{Few, Item, Rec, State};

/// How often a call looks for the other.
const LOOKS: u32 = 100_000_000;

/// Map 1 for an even and for an odd key: each call says that it has come, and looks whether one for the other key has.
#[derive(Drop)]
pub(crate) struct Meeting {
    even: Flags,
    odd: Flags,
}

/// Whether a call has come, and whether it has seen the other.
#[derive(Drop)]
struct Flags {
    has_come: AtomicBool,
    has_met: AtomicBool,
}

impl Flags {
    fn new() -> Flags {
        Flags {
            has_come: AtomicBool::new(false),
            has_met: AtomicBool::new(false),
        }
    }

    /// Says that this call has come, and looks for the other.
    fn meet(&self, other: &Flags) {
        self.has_come.store(true, Ordering::SeqCst);
        for _look in 0..LOOKS {
            if other.has_come.load(Ordering::SeqCst) {
                self.has_met.store(true, Ordering::SeqCst);
                return;
            }
        }
    }
}

impl Meeting {
    pub(crate) fn new() -> Meeting {
        Meeting {
            even: Flags::new(),
            odd: Flags::new(),
        }
    }

    /// Whether the calls for both keys have seen one another.
    pub(crate) fn has_met(&self) -> bool {
        self.even.has_met.load(Ordering::SeqCst) && self.odd.has_met.load(Ordering::SeqCst)
    }
}

impl Closures<Stock> for Meeting {
    ghost use Rattle.feed_steps.specs.Codes.{meeting_codes};

    ghost stored = { meeting_codes };

    fn map(&self, code: u16, port: u8, rec: Rec) -> Option<Few> {
        if code != 1 {
            return None;
        }
        if rec.key % 2 == 0 {
            self.even.meet(&self.odd);
        } else {
            self.odd.meet(&self.even);
        }
        Some(stock::same(port, rec))
    }

    fn group(&self, _code: u16, _key: u64, _items: &[Item]) -> Option<Few> {
        None
    }

    fn fold(
        &self,
        _code: u16,
        _key: u64,
        _state: Option<State>,
        _items: &[Item],
    ) -> Option<(Option<State>, Few)> {
        None
    }

    fn contains_map(&self, code: u16) -> bool {
        code == 1
    }

    fn contains_group(&self, _code: u16) -> bool {
        false
    }

    fn contains_fold(&self, _code: u16) -> bool {
        false
    }
}
