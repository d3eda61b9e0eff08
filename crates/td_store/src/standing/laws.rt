//! Laws of the definitions. Each is the contract of a function that does nothing.
ghost use Rattle.std.specs.Prelude.{◌≡◌, ◌==◌, ◌≢◌, ◌+◌, ◌<◌, ◌≤◌, ◌++◌, [], ◌∷◌, List, length, take, ℕ};
ghost use Rattle.std.specs.Prelude.{suc, Result, None, Ok, Err};
ghost use Rattle.std.specs.List.{list_all, list_any};
ghost use Rattle.td_stamp.specs.declared.values.Entry.{Entry as AnyEntry};
ghost use Rattle.td_stamp.specs.States.{StateList};
ghost use Rattle.td_plan.specs.Tree.{Nodes};
ghost use Rattle.td_plan.specs.Lines.{Line};
ghost use Rattle.td_plan.specs.Faults.{IsPlan};
ghost use Rattle.td_plan.specs.Inputs.{is_input_of};
ghost use Rattle.td_batch.specs.Meaning.{run};
ghost use Rattle.td_disk.specs.Disk.{IsDurable};
ghost use Rattle.td_gate.specs.Region.{opened};
ghost use Rattle.td_gate.specs.Regions.{Apart};
ghost use Rattle.td_head.specs.declared.error.HeadError.{HeadError};
ghost use Rattle.td_head.specs.declared.head.Head.{Head as AnyHead};
ghost use Rattle.td_head.specs.Layout.{Sizes, head_a, head_b, size_of};
ghost use Rattle.td_head.specs.Head.{IsHeaded};
ghost use Rattle.td_slots.specs.declared.error.SlotsError.{SlotsError};
ghost use Rattle.td_slots.specs.Slot.{slot};
ghost use Rattle.td_slots.specs.declared.slots.Checkpoint.{Checkpoint as AnyCheckpoint};
ghost use Rattle.td_slots.specs.Newest.{newest};
ghost use Rattle.td_journal.specs.declared.error.JournalError.{JournalError};
ghost use Rattle.td_journal.specs.declared.payload.Submitted.{Submitted as AnySubmitted};
ghost use Rattle.td_journal.specs.Cell.{cell, cell_of};
ghost use Rattle.td_journal.specs.Ring.{told_after};
ghost use Rattle.td_journal.specs.Images.{NothingFollows};
ghost use Rattle.td_store.specs.declared.standing.error.KeeperError.{KeeperError as AnyError};
ghost use Rattle.td_store.specs.standing.Refusals.{of_head, of_slots, of_journal};
ghost use Rattle.td_store.specs.standing.Standing.{Standing, last_epoch, last_request, batches_of, with_more, cut_at, nothing_told};
ghost use Rattle.td_store.specs.standing.Safe.{SubmitIsBegun, SubmitIsDone, ClearingIsTold, CutIsBegun, CutIsDone, RaiseIsBegun, RaiseIsDone};
ghost use Rattle.td_store.specs.standing.Safe.{ClearingIsSafe, SubmitIsSafe, SubmitIsKept, CutIsSafe, CutIsKept, RaiseIsSafe, RaiseIsKept};
ghost use Rattle.td_store.specs.standing.Stops.{Advance, Stands, Begins, Holds};
ghost use Rattle.td_store.specs.standing.Told.{Told, inputs_of, folds_of, slots_of, ring_of, floor_of};
ghost use Rattle.td_store.specs.standing.Tells.{Tells, EachTells, IsFormatted, first_head};

use td_calls::Law;
use td_disk::Disk;

/// What a disk tells after a stop is a beginning of what was submitted: of all since a format, where what it told before stood
/// for all of before. So any number of stops is covered.
pub fn advance_stands<L: Law>()
    ensures first { (nodes : Nodes) → Stands (λ b x. (run L.answers nodes b x).states) nothing_told [] }
    ensures each { (nodes : Nodes) (s t : Standing) (history submitted : List AnySubmitted)
        → Stands (λ b x. (run L.answers nodes b x).states) s history
        → Advance (λ b x. (run L.answers nodes b x).states) (with_more s submitted) t
        → (told : List AnySubmitted) × Begins told (history ++ submitted) × Stands (λ b x. (run L.answers nodes b x).states) t told }
{
    td_batch::laws::run_joins::<L>();
}

/// Each of these standings is an advance of what was submitted, and holds what it is to hold.
pub fn standings_advance<L: Law>()
    ensures not_yet { (nodes : Nodes) (s : Standing) (x : List AnySubmitted)
        → Advance (λ b y. (run L.answers nodes b y).states) (with_more s x) s }
    ensures submitted { (nodes : Nodes) (s : Standing) (x : List AnySubmitted)
        → Advance (λ b y. (run L.answers nodes b y).states) (with_more s x) (with_more s x) }
    ensures cut { (nodes : Nodes) (s : Standing) (k : ℕ) → k ≤ length s.submitted
        → Advance (λ b y. (run L.answers nodes b y).states) s (cut_at s k (run L.answers nodes s.states (batches_of (take k s.submitted))).states) }
    ensures holds { (s : Standing) (n : ℕ) (x : List AnySubmitted) → Holds s n → Holds (with_more s x) n }
    ensures holds_cut { (s : Standing) (n k : ℕ) (states : StateList) → k ≤ length s.submitted → Holds s n
        → Holds (cut_at s k states) n }
{}

/// Advances join: what is an advance of a standing after a submit, or after a cut, is one of the standing before it, with all
/// that was submitted; and it stays one whatever is submitted later. A cut leaves the last epoch as it was.
pub fn advances_join<L: Law>()
    ensures submitted { (nodes : Nodes) (s u : Standing) (x y : List AnySubmitted)
        → Advance (λ b z. (run L.answers nodes b z).states) (with_more (with_more s x) y) u
        → Advance (λ b z. (run L.answers nodes b z).states) (with_more s (x ++ y)) u }
    ensures cut { (nodes : Nodes) (s u : Standing) (k : ℕ) (states : StateList) (y : List AnySubmitted) → k ≤ length s.submitted
        → states ≡ (run L.answers nodes s.states (batches_of (take k s.submitted))).states
        → Advance (λ b z. (run L.answers nodes b z).states) (with_more (cut_at s k states) y) u
        → Advance (λ b z. (run L.answers nodes b z).states) (with_more s y) u }
    ensures later { (nodes : Nodes) (s u : Standing) (y : List AnySubmitted)
        → Advance (λ b z. (run L.answers nodes b z).states) s u
        → Advance (λ b z. (run L.answers nodes b z).states) (with_more s y) u }
    ensures last { (s : Standing) (k : ℕ) (states : StateList) → k ≤ length s.submitted
        → last_epoch (cut_at s k states) ≡ last_epoch s }
{
    td_batch::laws::run_joins::<L>();
}

/// The last request number never falls: not where a disk tells an advance that holds all epochs of before, not by a submit, and
/// not by a cut; and it is at least that of each batch submitted. An advance that cuts off epochs of before may have a smaller
/// one: so it is asked that all of them are held.
pub fn last_request_never_falls<L: Law>()
    ensures told { (nodes : Nodes) (s t : Standing) (submitted : List AnySubmitted)
        → Advance (λ b y. (run L.answers nodes b y).states) (with_more s submitted) t
        → Holds t (last_epoch s)
        → last_request s ≤ last_request t }
    ensures submitted { (s : Standing) (x : AnySubmitted)
        → (last_request s ≤ last_request (with_more s (x ∷ []))) × (x.request ≤ last_request (with_more s (x ∷ []))) }
    ensures cut { (s : Standing) (k : ℕ) (states : StateList) → last_request (cut_at s k states) ≡ last_request s }
{}

/// The parts of a disk have no byte in common, and lie within it.
pub fn parts_are_apart()
    ensures heads { Apart head_a head_b }
    ensures heads_slots { (sizes : Sizes) (i : ℕ)
        → Apart head_a (slot (slots_of sizes) i) × Apart head_b (slot (slots_of sizes) i) }
    ensures heads_cells { (sizes : Sizes) (kept i : ℕ)
        → Apart head_a (cell (ring_of sizes kept) i) × Apart head_b (cell (ring_of sizes kept) i) }
    ensures slots { (sizes : Sizes) → Apart (slot (slots_of sizes) 0) (slot (slots_of sizes) 1) }
    ensures slots_cells { (sizes : Sizes) (kept i : ℕ)
        → Apart (slot (slots_of sizes) 0) (cell (ring_of sizes kept) i) × Apart (slot (slots_of sizes) 1) (cell (ring_of sizes kept) i) }
    ensures cells { (sizes : Sizes) (kept i k : ℕ) → i ≢ k
        → Apart (cell (ring_of sizes kept) i) (cell (ring_of sizes kept) k) }
    ensures ends { (sizes : Sizes) (kept i : ℕ) → i < sizes.n
        → (cell (ring_of sizes kept) i).at + (cell (ring_of sizes kept) i).len + 1 ≤ size_of sizes }
{
    td_journal::laws::cells();
}

/// What an image tells is told by its parts, and the other way round. It tells one answer.
pub fn told_in_parts()
    ensures together { (plan : List Line) (head : AnyHead) (side : ℕ) (s : Standing) (image : List ℕ)
        → Tells plan head side s image → Told plan image (Ok s) }
    ensures apart { (plan : List Line) (s : Standing) (image : List ℕ) → Told plan image (Ok s)
        → (head : AnyHead) × (side : ℕ) × Tells plan head side s image }
    ensures one_answer { (plan : List Line) (image : List ℕ) (a b : Result Standing AnyError) → Told plan image a
        → Told plan image b → a ≡ b }
{}

/// The first refusal of the parts is what an image tells.
pub fn told_refused()
    ensures head { (plan : List Line) (image : List ℕ) (e : HeadError) → IsHeaded plan image (Err e)
        → Told plan image (Err (of_head e)) }
    ensures slots { (plan : List Line) (head : AnyHead) (image : List ℕ) (e : SlotsError)
        → IsHeaded plan image (Ok head)
        → newest head.version (folds_of plan) (slots_of head.shape) image ≡ Err e
        → Told plan image (Err (of_slots e)) }
    ensures cells { (plan : List Line) (head : AnyHead) (image : List ℕ) (at : AnyCheckpoint) (e : JournalError)
        → IsHeaded plan image (Ok head)
        → newest head.version (folds_of plan) (slots_of head.shape) image ≡ Ok at
        → told_after (inputs_of plan) (ring_of head.shape at.epoch) image (floor_of head.version at.last) at.epoch ≡ Err e
        → Told plan image (Err (of_journal e)) }
{}

/// THE NEXT EPOCH IS SUBMITTED. While its batch is put into its cell, and nothing follows it in the ring, an image that
/// told a standing tells it still, or it with the batch; once it is put, it with the batch.
pub fn next_is_submitted()
    ensures begun { SubmitIsBegun }
    ensures done { SubmitIsDone }
{
    td_gate::laws::put_leaves_others();
    td_head::laws::heads_tell();
    td_slots::laws::slots_tell();
    td_journal::laws::next_is_put();
}

/// Before that the cell after the next epoch's is closed, where it is open and bears the epoch after it: an image tells
/// what it told, and then nothing follows.
pub fn following_is_cleared()
    ensures begun { ClearingIsTold }
    ensures done { (sizes : Sizes) (kept e : ℕ) (image : List ℕ)
        → opened (cell_of (ring_of sizes kept) (suc e)) image ≡ None → NothingFollows (ring_of sizes kept) image e }
{
    td_gate::laws::put_leaves_others();
    td_head::laws::heads_tell();
    td_slots::laws::slots_tell();
    td_journal::laws::following_is_closed();
}

/// A CUT IS WRITTEN. While states after the first k epochs are put into the slot beside the newest, an image that told
/// a standing tells it still, or the standing cut there; once they are put, the latter.
pub fn cut_is_written()
    ensures begun { CutIsBegun }
    ensures done { CutIsDone }
{
    td_gate::laws::put_leaves_others();
    td_head::laws::heads_tell();
    td_slots::laws::other_is_put();
    td_journal::laws::cells_tell();
    td_journal::laws::checkpoint_goes_on();
    td_journal::laws::told_numbers_rise();
}

/// The crash clause of a submit, by the contracts of `Journal::clear` and `Region::put` alone: each image since a moment up
/// to its start was one by then, or it tells the standing, or it with the batch; once both answered Ok, each image tells it
/// with the batch.
pub fn submit_is_safe<D: Disk>()
    ensures cleared { ClearingIsSafe D.view }
    ensures begun { SubmitIsSafe D.view }
    ensures done { SubmitIsKept D.view }
{
    following_is_cleared();
    next_is_submitted();
}

/// The same for a cut that is written, by the contract of `Slots::write`.
pub fn write_cut_is_safe<D: Disk>()
    ensures begun { CutIsSafe D.view }
    ensures done { CutIsKept D.view }
{
    cut_is_written();
}

/// A HEAD IS RAISED. While the head that follows one is put beside it, an image that told a standing tells it still, under
/// the one head or the other; once it is put, under the other.
pub fn head_is_raised()
    ensures begun { RaiseIsBegun }
    ensures done { RaiseIsDone }
{
    td_gate::laws::put_leaves_others();
    td_head::laws::heads_tell();
    td_head::laws::other_head_is_put();
    td_slots::laws::slots_tell();
    td_slots::laws::version_is_raised();
    td_journal::laws::cells_tell();
    td_journal::laws::version_is_raised();
}

/// The crash clause of an upgrade, by the contract of `td_head::raise`.
pub fn raise_is_safe<D: Disk>()
    ensures begun { RaiseIsSafe D.view }
    ensures done { RaiseIsKept D.view }
{
    head_is_raised();
}

/// Where a crash leaves what is read, each image tells what is read.
pub fn recovered<D: Disk>()
    ensures { (plan : List Line) (head : AnyHead) (side : ℕ) (s : Standing) (d : D)
        → IsDurable (D.view d).state → Tells plan head side s (D.view d).state.bytes → EachTells plan head side s (D.view d).state }
{}

/// A disk as a format leaves it tells the standing of no epochs.
pub fn formatted()
    ensures { (plan : List Line) (sizes : Sizes) (image : List ℕ) → IsPlan plan → IsFormatted plan sizes image
        → Tells plan (first_head sizes) 0 nothing_told image }
{
    td_head::laws::first_head_tells();
    td_slots::laws::slots_read_back();
    td_journal::laws::closed_tells_nothing();
}

/// A plan accepts the batches whose records name its inputs, and no other.
pub fn inputs_are_accepted()
    ensures { (plan : List Line) (batch : List AnyEntry) → IsPlan plan
        → list_all (λ e. is_input_of plan e.input) batch ≡ list_all (λ e. list_any (λ v. v == e.input) (inputs_of plan)) batch }
{
    td_plan::laws::look_ups();
}
