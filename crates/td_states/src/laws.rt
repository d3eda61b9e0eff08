//! Laws of the definitions. Each is the contract of a function that does nothing.
ghost use Rattle.std.specs.Prelude.{◌≡◌, ◌^◌, ◌<◌, ℕ, List, []};
ghost use Rattle.td_stamp.specs.declared.values.Entry.{Entry as AnyEntry};
ghost use Rattle.td_stamp.specs.States.{StateList};
ghost use Rattle.td_plan.specs.Lines.{Line};
ghost use Rattle.td_gate.specs.Reading.{Each};
ghost use Rattle.td_slots.specs.declared.slots.Checkpoint.{Checkpoint as AnyCheckpoint};
ghost use Rattle.td_slots.specs.Slot.{FitsState};
ghost use Rattle.td_journal.specs.declared.payload.Submitted.{Submitted as AnySubmitted};
ghost use Rattle.td_store.specs.standing.Standing.{Standing};
ghost use Rattle.td_store.specs.standing.Stops.{Stands};
ghost use Rattle.td_store.specs.standing.Tells.{checkpoint_of};
ghost use Rattle.td_states.specs.declared.rename.Rename.{Rename as AnyRename};
ghost use Rattle.td_states.specs.declared.error.StatesFault.{StatesFault as AnyFault};
ghost use Rattle.td_states.specs.declared.error.StatesError.TheVariants.{Line as AtLine};
ghost use Rattle.td_states.specs.Lines.{checkpoint_text};
ghost use Rattle.td_states.specs.Spelled.{StatesText, StatesTextFault};
ghost use Rattle.td_states.specs.Written.{MayBeLoaded, loaded};

/// THE TEXT OF A CHECKPOINT SPELLS IT for the plan whose checkpoint it is, where no fold is renamed.
pub fn states_are_spelled()
    ensures { (plan : List Line) (c : AnyCheckpoint) → MayBeLoaded plan c → c.last < 2 ^ 64 → Each FitsState c.states
        → StatesText plan [] (checkpoint_text c) c }
{}

/// A text spells at most one checkpoint, and one that spells a checkpoint has no first fault.
pub fn one_answer()
    ensures once { (plan : List Line) (renames : List AnyRename) (text : List ℕ) (c d : AnyCheckpoint)
        → StatesText plan renames text c → StatesText plan renames text d → c ≡ d }
    ensures no_fault { (plan : List Line) (renames : List AnyRename) (text : List ℕ) (c : AnyCheckpoint) (n : ℕ) (fault : AnyFault)
        → StatesText plan renames text c → StatesTextFault plan renames text (AtLine n fault) → ⊥ }
{}

/// WHAT `states` WROTE, `load` BRINGS TO STAND: where a disk stands for some epochs, one that was made of its checkpoint stands for those up
/// to the checkpoint. The epochs after it are those that `dump` writes.
pub fn loaded_stands()
    ensures { (run : StateList → List (List AnyEntry) → StateList) (s : Standing) (history : List AnySubmitted)
        → (stands : Stands run s history) → Stands run (loaded (checkpoint_of 0 s)) stands.before }
{}
