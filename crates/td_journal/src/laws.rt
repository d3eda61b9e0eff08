//! Laws of the definitions. Each is the contract of a function that does nothing.
ghost use Rattle.std.specs.Prelude.{◌≡◌, ◌≢◌, ◌⊎◌, ◌+◌, ◌^◌, ◌<◌, ◌≤◌, ◌&&◌, ℕ, suc, true, ◌==◌, All, List, [], ◌∷◌};
ghost use Rattle.std.specs.Prelude.{◌++◌, length, take, drop, Option, Some, None, Ok};
ghost use Rattle.std.specs.List.{list_all, list_any};
ghost use Rattle.td_stamp.specs.declared.values.Entry.{Entry as AnyEntry};
ghost use Rattle.td_stamp.specs.Bag.{IsBag};
ghost use Rattle.td_stamp.specs.Orders.{entry_cmp};
ghost use Rattle.td_gate.specs.Region.{opened, Closes, Puts};
ghost use Rattle.td_gate.specs.Regions.{Apart, Replaces};
ghost use Rattle.td_journal.specs.declared.journal.Journal.{Journal as AnyJournal};
ghost use Rattle.td_journal.specs.declared.payload.Submitted.{Submitted as AnySubmitted};
ghost use Rattle.td_journal.specs.Cell.{is_batch, cell, cell_of, cell_len, ring_len, cell_bytes, found_in, IsCellBatch};
ghost use Rattle.td_journal.specs.Cell.Found.{submitted};
ghost use Rattle.td_journal.specs.Images.{IsBorne, IsNext, SameCells, NothingFollows};
ghost use Rattle.td_journal.specs.Numbers.{floor_after, greatest, may_come, rise};
ghost use Rattle.td_journal.specs.Ring.{told_after};

/// Cells have no byte in common, and lie one after the other.
pub fn cells()
    ensures apart { (j : AnyJournal) (i k : ℕ) → i ≢ k → Apart (cell j i) (cell j k) }
    ensures after { (j : AnyJournal) (i : ℕ) → j.at ≤ (cell j i).at }
    ensures within { (j : AnyJournal) (i : ℕ) → i < j.n → (cell j i).at + (cell j i).len + 1 ≤ j.at + ring_len j.m j.n }
{}

/// What is written for an epoch has a cell's length and is read back.
pub fn cells_read_back()
    ensures size { (m e r : ℕ) (x : List AnyEntry) → length x ≤ m → length (cell_bytes m e r x) ≡ cell_len m }
    ensures found { (inputs : List ℕ) (floor : Option ℕ) (m e i : ℕ) (x : AnySubmitted)
        → IsCellBatch inputs m x → may_come floor x.request ≡ true → e < 2 ^ 63
        → found_in inputs floor m e i (Some (cell_bytes m e x.request x.batch)) ≡ submitted x }
{}

/// What the ring tells depends on what its cells hold alone.
pub fn cells_tell()
    ensures { (inputs : List ℕ) (j : AnyJournal) (old new : List ℕ) (floor : Option ℕ) (checkpoint : ℕ) (w : List AnySubmitted)
        → 0 < j.n → SameCells j old new → told_after inputs j old floor checkpoint ≡ Ok w → told_after inputs j new floor checkpoint ≡ Ok w }
{}

/// While the next epoch is put into its cell, with a number that may come, and nothing follows it there, the ring tells
/// the epochs of before, or these and the next; once it is put, these and the next.
pub fn next_is_put()
    ensures begun { (inputs : List ℕ) (j : AnyJournal) (old new : List ℕ) (floor : Option ℕ) (checkpoint e : ℕ) (w : List AnySubmitted) (x : AnySubmitted)
        → IsNext inputs j old floor checkpoint w e → e < 2 ^ 63 → IsCellBatch inputs j.m x → may_come (floor_after floor w) x.request ≡ true
        → NothingFollows j old e → Puts (cell_of j e) (cell_bytes j.m e x.request x.batch) old new
        → (told_after inputs j new floor checkpoint ≡ Ok w) ⊎ (told_after inputs j new floor checkpoint ≡ Ok (w ++ x ∷ [])) }
    ensures done { (inputs : List ℕ) (j : AnyJournal) (old new : List ℕ) (floor : Option ℕ) (checkpoint e : ℕ) (w : List AnySubmitted) (x : AnySubmitted)
        → IsNext inputs j old floor checkpoint w e → e < 2 ^ 63 → IsCellBatch inputs j.m x → may_come (floor_after floor w) x.request ≡ true
        → NothingFollows j old e → Replaces (cell_of j e) (cell_bytes j.m e x.request x.batch) old new
        → told_after inputs j new floor checkpoint ≡ Ok (w ++ x ∷ []) }
{
    td_gate::laws::put_leaves_others();
}

/// Where the cell after the next epoch's bears the epoch after it, closing that cell changes nothing that the ring tells;
/// and where it is closed, nothing follows.
pub fn following_is_closed()
    ensures begun { (inputs : List ℕ) (j : AnyJournal) (old new : List ℕ) (floor : Option ℕ) (checkpoint e : ℕ) (w : List AnySubmitted)
        → IsNext inputs j old floor checkpoint w e → IsBorne j old (suc e) → Closes (cell_of j (suc e)) old new
        → told_after inputs j new floor checkpoint ≡ Ok w }
    ensures done { (j : AnyJournal) (image : List ℕ) (e : ℕ) → opened (cell_of j (suc e)) image ≡ None → NothingFollows j image e }
{
    td_gate::laws::put_leaves_others();
}

/// From a later checkpoint, whose floor takes in the numbers up to it, the ring tells the later ones of its epochs.
pub fn checkpoint_goes_on()
    ensures { (inputs : List ℕ) (j : AnyJournal) (image : List ℕ) (floor : Option ℕ) (checkpoint k : ℕ) (w : List AnySubmitted)
        → 0 < j.n → k ≤ length w → told_after inputs j image floor checkpoint ≡ Ok w
        → told_after inputs j image (floor_after floor (take k w)) (checkpoint + k) ≡ Ok (drop k w) }
{}

/// A batch whose records name inputs is one that a cell may hold, and what a cell holds is a batch.
pub fn batches_are_in_order()
    ensures written { (inputs : List ℕ) (x : List AnyEntry) → IsBag entry_cmp x → list_all (λ e. list_any (λ v. v == e.input) inputs) x ≡ true → is_batch inputs x ≡ true }
    ensures read { (inputs : List ℕ) (x : List AnyEntry) → is_batch inputs x ≡ true → IsBag entry_cmp x }
{}

/// Where the cell of the epoch after a checkpoint is closed, the ring tells no epochs.
pub fn closed_tells_nothing()
    ensures { (inputs : List ℕ) (j : AnyJournal) (image : List ℕ) (floor : Option ℕ) (checkpoint : ℕ) → opened (cell_of j (suc checkpoint)) image ≡ None → told_after inputs j image floor checkpoint ≡ Ok [] }
{}

/// The numbers that a ring tells rise: so each request stands in at most one epoch.
pub fn told_numbers_rise()
    ensures { (inputs : List ℕ) (j : AnyJournal) (image : List ℕ) (floor : Option ℕ) (checkpoint : ℕ) (w : List AnySubmitted)
        → told_after inputs j image floor checkpoint ≡ Ok w → rise floor w ≡ true }
{}

/// The rule on numbers for one epoch more, and what the greatest number is.
pub fn numbers()
    ensures one_more { (floor : Option ℕ) (w : List AnySubmitted) (x : AnySubmitted)
        → rise floor (w ++ x ∷ []) ≡ (rise floor w && may_come (floor_after floor w) x.request) }
    ensures joined { (q : ℕ) (v w : List AnySubmitted) → greatest q (v ++ w) ≡ greatest (greatest q v) w }
    ensures at_least { (q : ℕ) (w : List AnySubmitted) → q ≤ greatest q w }
    ensures each { (q : ℕ) (w : List AnySubmitted) → All (λ s. s.request ≤ greatest q w) w }
{}

/// What a ring tells where there are no numbers, it tells after the number 0, and each of its numbers is 0.
pub fn version_is_raised()
    ensures { (inputs : List ℕ) (j : AnyJournal) (image : List ℕ) (checkpoint : ℕ) (w : List AnySubmitted)
        → told_after inputs j image None checkpoint ≡ Ok w → told_after inputs j image (Some 0) checkpoint ≡ Ok w }
{}
