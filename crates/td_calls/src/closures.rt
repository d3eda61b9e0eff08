//! Boxed closures, each with the proof that it answers the catalogue for its code.
ghost use Rattle.std.specs.Prelude.{◌≡◌};
ghost use Rattle.td_calls.specs.Lawful.{IsLawfulMap, IsLawfulGroup, IsLawfulFold};
ghost use Rattle.td_calls.specs.Stock.{stock};

use crate::calls::Calls;
use crate::law::{Coded, FoldCall, GroupCall, MapCall};
use crate::stock::Stock;
use td_stamp::{Few, Item, Rec, State};

/// A map's closure: it takes a port and a record.
pub type MapBox = Box<dyn Fn(u8, Rec) -> Few + Send + Sync>;

/// A group's closure: it takes a key and its sorted items.
pub type GroupBox = Box<dyn Fn(u64, &[Item]) -> Few + Send + Sync>;

/// A fold's closure: it takes a key, its state and its sorted items, and answers the state that the key has from then
/// on, and what is sent.
pub type FoldBox = Box<dyn Fn(u64, Option<State>, &[Item]) -> (Option<State>, Few) + Send + Sync>;

/// A map's closure of the catalogue.
#[derive(Drop)]
pub struct StockMap {
    pub code: u16,
    run: MapBox,
    ghost callable: { MapBox.IsAlwaysCallable run },
    ghost lawful: { IsLawfulMap (λ few. few.items) stock (MapBox.post run) code },
}

impl StockMap {
    /// A closure that answers the catalogue for `code`.
    pub fn new(code: u16, run: MapBox) -> Self
        requires callable { MapBox.IsAlwaysCallable run }
        requires lawful { IsLawfulMap (λ few. few.items) stock (MapBox.post run) code }
        ensures { result.code ≡ code }
    {
        StockMap { code, run }
    }
}

impl Coded for StockMap {
    ghost code_of = { λ c. c.code };

    fn code(&self) -> u16 {
        self.code
    }
}

impl MapCall<Stock> for StockMap {
    fn call(&self, port: u8, rec: Rec) -> Few {
        (self.run)(port, rec)
    }
}

/// A group's closure of the catalogue.
#[derive(Drop)]
pub struct StockGroup {
    pub code: u16,
    run: GroupBox,
    ghost callable: { GroupBox.IsAlwaysCallable run },
    ghost lawful: { IsLawfulGroup (λ few. few.items) (λ items. items.now) stock (GroupBox.post run) code },
}

impl StockGroup {
    /// A closure that answers the catalogue for `code`.
    pub fn new(code: u16, run: GroupBox) -> Self
        requires callable { GroupBox.IsAlwaysCallable run }
        requires lawful { IsLawfulGroup (λ few. few.items) (λ items. items.now) stock (GroupBox.post run) code }
        ensures { result.code ≡ code }
    {
        StockGroup { code, run }
    }
}

impl Coded for StockGroup {
    ghost code_of = { λ c. c.code };

    fn code(&self) -> u16 {
        self.code
    }
}

impl GroupCall<Stock> for StockGroup {
    fn call(&self, key: u64, items: &[Item]) -> Few {
        (self.run)(key, items)
    }
}

/// A fold's closure of the catalogue.
#[derive(Drop)]
pub struct StockFold {
    pub code: u16,
    run: FoldBox,
    ghost callable: { FoldBox.IsAlwaysCallable run },
    ghost lawful: { IsLawfulFold (λ few. few.items) (λ items. items.now) stock (FoldBox.post run) code },
}

impl StockFold {
    /// A closure that answers the catalogue for `code`.
    pub fn new(code: u16, run: FoldBox) -> Self
        requires callable { FoldBox.IsAlwaysCallable run }
        requires lawful { IsLawfulFold (λ few. few.items) (λ items. items.now) stock (FoldBox.post run) code }
        ensures { result.code ≡ code }
    {
        StockFold { code, run }
    }
}

impl Coded for StockFold {
    ghost code_of = { λ c. c.code };

    fn code(&self) -> u16 {
        self.code
    }
}

impl FoldCall<Stock> for StockFold {
    fn call(&self, key: u64, state: Option<State>, items: &[Item]) -> (Option<State>, Few) {
        (self.run)(key, state, items)
    }
}

/// The stored closures of the catalogue.
pub type StockCalls = Calls<StockMap, StockGroup, StockFold>;
