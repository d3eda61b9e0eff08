//! Laws of the definitions, each the contract of a function that does nothing.
ghost use Rattle.std.specs.Prelude.{◌≡◌, ℕ, ◌<◌, false, List, [], Option, None};
ghost use Rattle.td_stamp.specs.declared.values.Rec.{Rec};
ghost use Rattle.td_stamp.specs.declared.values.Item.{Item};
ghost use Rattle.td_stamp.specs.declared.values.State.{State};
ghost use Rattle.td_plan.specs.declared.vertex.Kind.TheVariants.{Map, Group, Fold};
ghost use Rattle.td_calls.specs.Stock.{stock};
ghost use Rattle.td_catalogue.specs.Catalogue.{catalogue};
ghost use Rattle.td_catalogue.specs.Maps.{map_of};
ghost use Rattle.td_catalogue.specs.Groups.{group_of};
ghost use Rattle.td_catalogue.specs.Folds.{fold_of};
ghost use Rattle.td_catalogue.specs.Shelves.{in_catalogue};

/// The second shelf leaves the first as it is: a code below 1,000 means what it means there.
pub fn first_shelf()
    ensures maps { (code port : ℕ) (rec : Rec) → code < 1000 → catalogue.emit code port rec ≡ stock.emit code port rec }
    ensures groups { (code key : ℕ) (items : List Item) → code < 1000 → catalogue.group code key items ≡ stock.group code key items }
    ensures folds { (code key : ℕ) (state : Option State) (items : List Item) →
        code < 1000 → catalogue.fold code key state items ≡ stock.fold code key state items }
{}

/// No code above 9,999 is one of the second shelf.
pub fn second_shelf()
    ensures maps { (code : ℕ) → 9999 < code → map_of code ≡ None }
    ensures groups { (code : ℕ) → 9999 < code → group_of code ≡ None }
    ensures folds { (code : ℕ) → 9999 < code → fold_of code ≡ None }
{}

/// A code on neither shelf sends nothing, and a state stays as it is.
pub fn neither_shelf()
    ensures maps { (code port : ℕ) (rec : Rec) → in_catalogue (Map code) ≡ false → catalogue.emit code port rec ≡ [] }
    ensures groups { (code key : ℕ) (items : List Item) → in_catalogue (Group code) ≡ false → catalogue.group code key items ≡ [] }
    ensures folds { (code key : ℕ) (state : Option State) (items : List Item) →
        in_catalogue (Fold code) ≡ false → catalogue.fold code key state items ≡ (state, []) }
{}
