//! Laws of the definitions, each the contract of a function that does nothing.
ghost use Rattle.std.specs.Prelude.{◌≡◌, List, [], map};
ghost use Rattle.td_formula.specs.declared.closure.Closure.{Closure};
ghost use Rattle.td_closures.specs.Texts.{ClosuresText};
ghost use Rattle.td_closures.specs.Kept.{said_by};
ghost use Rattle.td_formula.specs.Stored.{stored_beside};
ghost use Rattle.td_c.specs.Stores.{stored_catalogue};

use td_catalogue::laws::{neither_shelf, second_shelf};

/// An empty text of closures adds nothing to the catalogue: with it `td_check_with` and `td_epoch_with` promise what `td_check` and
/// `td_epoch` do.
pub fn empty_text()
    ensures { (closures : List Closure) → ClosuresText [] (map said_by closures) → stored_beside stored_catalogue closures ≡ stored_catalogue }
{
    second_shelf();
    neither_shelf();
}
