//! Laws of the definitions. Each is the contract of a function that does nothing.
ghost use Rattle.std.specs.Prelude.{◌≡◌, ◌⊎◌, ◌+◌, ◌-◌, ◌*◌, ◌^◌, ◌<◌, ◌≤◌, ℕ, true, ◌==◌, List, length, Ok};
ghost use Rattle.td_stamp.specs.States.{StateList, AreStates};
ghost use Rattle.std.specs.List.{list_all, list_any};
ghost use Rattle.std.specs.Ordering.{is_lt};
ghost use Rattle.td_gate.specs.Fields.{is_chain};
ghost use Rattle.td_stamp.specs.Orders.{state_key_cmp};
ghost use Rattle.td_gate.specs.Region.{Puts};
ghost use Rattle.td_gate.specs.Regions.{Apart, Replaces};
ghost use Rattle.td_slots.specs.declared.slots.Slots.{Slots as AnySlots};
ghost use Rattle.td_slots.specs.declared.slots.Checkpoint.{Checkpoint as AnyCheckpoint};
ghost use Rattle.td_slots.specs.Slot.{are_states, slot, slot_len, slot_bytes, AreSlotStates, IsLast};
ghost use Rattle.td_slots.specs.Newest.{checkpoint_in, newest, after_write};
ghost use Rattle.td_slots.specs.Images.{SameSlots};

/// The two slots have no byte in common, and lie one after the other.
pub fn slots()
    ensures apart { (s : AnySlots) → Apart (slot s 0) (slot s 1) }
    ensures first { (s : AnySlots) → (slot s 0).at ≡ s.at }
    ensures end { (s : AnySlots) → (slot s 1).at + (slot s 1).len + 1 ≡ s.at + 2 * (slot_len s.k + 1) }
{}

/// What is written for states has a slot's length and is read back.
pub fn slots_read_back()
    ensures size { (k epoch last : ℕ) (states : StateList)
        → length states ≤ k → length (slot_bytes k epoch last states) ≡ slot_len k }
    ensures found { (version : ℕ) (folds : List ℕ) (k side epoch last : ℕ) (states : StateList)
        → epoch < 2 ^ 63 → IsLast version last → AreSlotStates folds k states
        → checkpoint_in version folds k side (slot_bytes k epoch last states)
        ≡ Ok (record { slot = side; epoch = epoch; last = last; states = states }) }
{}

/// The newest checkpoint depends on what the slots hold alone.
pub fn slots_tell()
    ensures { (version : ℕ) (folds : List ℕ) (s : AnySlots) (old new : List ℕ)
        → SameSlots s old new → newest version folds s new ≡ newest version folds s old }
{}

/// While states are put into the slot that is not the newest, the newest is that of before, or that after the write;
/// once they are put, that after the write.
pub fn other_is_put()
    ensures begun { (version : ℕ) (folds : List ℕ) (s : AnySlots) (old new : List ℕ)
        (c : AnyCheckpoint) (epoch last : ℕ) (states : StateList)
        → newest version folds s old ≡ Ok c
        → epoch < 2 ^ 63 → IsLast version last → AreSlotStates folds s.k states
        → Puts (slot s (1 - c.slot)) (slot_bytes s.k epoch last states) old new
        → (newest version folds s new ≡ Ok c) ⊎ (newest version folds s new ≡ Ok (after_write c epoch last states)) }
    ensures done { (version : ℕ) (folds : List ℕ) (s : AnySlots) (old new : List ℕ)
        (c : AnyCheckpoint) (epoch last : ℕ) (states : StateList)
        → newest version folds s old ≡ Ok c
        → epoch < 2 ^ 63 → IsLast version last → AreSlotStates folds s.k states
        → Replaces (slot s (1 - c.slot)) (slot_bytes s.k epoch last states) old new
        → newest version folds s new ≡ Ok (after_write c epoch last states) }
{
    td_gate::laws::put_leaves_others();
}

/// Kept states of folds are such as a slot may hold, and what a slot holds are such.
pub fn states_are_in_order()
    ensures written { (folds : List ℕ) (states : StateList)
        → AreStates states → list_all (λ s. list_any (λ v. v == s.0.0) folds) states ≡ true
        → are_states folds states ≡ true }
    ensures read { (folds : List ℕ) (states : StateList) → are_states folds states ≡ true → AreStates states }
    ensures named { (folds : List ℕ) (states : StateList)
        → are_states folds states ≡ true → list_all (λ s. list_any (λ v. v == s.0.0) folds) states ≡ true }
    ensures rises { (states : StateList) → is_chain (λ x y. is_lt (state_key_cmp x.0 y.0)) states ≡ true → AreStates states }
{}

/// The newest checkpoint of any version of the format is that of version 2.
pub fn version_is_raised()
    ensures { (version : ℕ) (folds : List ℕ) (s : AnySlots) (image : List ℕ) (c : AnyCheckpoint)
        → newest version folds s image ≡ Ok c → newest 2 folds s image ≡ Ok c }
{}
