//! Laws of the definitions. Each is the contract of a function that does nothing.
ghost use Rattle.std.specs.Prelude.{◌≡◌, ◌↔◌, false, List, is_some};
ghost use Rattle.td_plan.specs.declared.vertex.Kind.{Kind};
ghost use Rattle.td_plan.specs.Lines.{Line};
ghost use Rattle.td_plan.specs.Faults.{IsPlan};
ghost use Rattle.td_plan.specs.Texts.{PlanText};
ghost use Rattle.td_catalogue.specs.Shelves.{in_catalogue};
ghost use Rattle.td_picture.specs.Words.{words_of, told_of, unknown};
ghost use Rattle.td_picture.specs.Listed.{listing_of};

use td_plan::laws;

/// The listing of a plan spells that plan.
pub fn listings_are_read()
    ensures { (plan : List Line) → IsPlan plan → PlanText (listing_of plan) plan }
{
    laws::lines_by_words();
}

/// There are words for the closure of a kind exactly where the catalogue has it, and the text for an unknown one is told exactly where
/// it has none.
pub fn words_are_the_catalogue()
    ensures words { (kind : Kind) → is_some (words_of kind) ≡ in_catalogue kind }
    ensures unknown { (kind : Kind) → (told_of kind ≡ unknown) ↔ (in_catalogue kind ≡ false) }
{}
