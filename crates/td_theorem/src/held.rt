//! Streams that hold their outputs, over any number of stops. Each law is the contract of a function that calls the laws that it follows from.
ghost use Rattle.std.specs.Prelude.{◌≡◌, ◌≤◌, ℕ, Bool, true, List, Option, OnOk};
ghost use Rattle.td_plan.specs.Lines.{Line};
ghost use Rattle.td_head.specs.Layout.{Sizes};
ghost use Rattle.td_store.specs.standing.Standing.{nothing_told};
ghost use Rattle.td_store.specs.standing.Tells.{Keeps, first_head};
ghost use Rattle.td_theorem.specs.Life.{TellsAs};
ghost use Rattle.td_theorem.specs.Held.{Delivery, HoldsBack, WritesAgain, IsDelivery, Deliveries, seen_in_all};

use td_calls::Law;
use td_disk::Disk;
use td_keeper::laws;

/// AN OUTPUT IS HELD UNTIL IT IS SEEN. Let any number of streams with `--marks --hold` stand on a disk, one after another, each stopped
/// anywhere, in the middle of a write too: the checkpoint is of no epoch after the last one of which a line `seen` of their inputs told.
/// Each input counts whole, with the lines that its stream had not read yet when it was stopped. A disk that was just formatted keeps epoch
/// 0. And a stream of one worker that then answers Ok has written the output lines, each epoch's with its mark, of each later epoch that the
/// disk told at its start.
pub fn outputs_are_held<D: Disk, L: Law>()
    ensures begins { (plan : List Line) (sizes : Sizes) (image : List ℕ) (disk : D) → Keeps plan (first_head sizes) 0 nothing_told (D.view disk).state
        → (D.view disk).state.images image → HoldsBack L.answers plan 0 image }
    ensures held { (plan : List Line) (last : ℕ) (from to : List ℕ) (deliveries : List (Delivery D)) → HoldsBack L.answers plan last from
        → Deliveries D.view L.answers plan from deliveries to → HoldsBack L.answers plan (seen_in_all plan last deliveries) to }
    ensures again { (plan : List Line) (last : ℕ) (image : List ℕ) (d : Delivery D) → HoldsBack L.answers plan last image → TellsAs plan image (D.view d.disk).state
        → IsDelivery D.view L.answers plan d → d.alone ≡ true → OnOk d.result (WritesAgain L.answers plan last image d) }
{
    laws::driven_acknowledges::<D, L>();
    laws::driven_hands_on::<D, L>();
    td_feed::laws::moments_are_told::<D, L>();
    td_store::standing::laws::advance_stands::<L>();
    td_store::standing::laws::told_in_parts();
    td_batch::laws::run_joins::<L>();
}
