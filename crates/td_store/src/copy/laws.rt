//! Laws of copies. Each is the contract of a function that calls the laws that it follows from.
ghost use Rattle.std.specs.Prelude.{List, ℕ};
ghost use Rattle.td_plan.specs.Lines.{Line};
ghost use Rattle.td_head.specs.declared.head.Head.{Head as AnyHead};
ghost use Rattle.td_store.specs.standing.Standing.{Standing};
ghost use Rattle.td_store.specs.standing.Tells.{Tells};
ghost use Rattle.td_store.specs.copy.Copied.{IsRising};

/// The numbers of a standing that an image tells rise, as they must where it is put on another disk.
pub fn told_rises()
    ensures { (plan : List Line) (head : AnyHead) (side : ℕ) (s : Standing) (image : List ℕ) → Tells plan head side s image → IsRising s }
{
    td_journal::laws::told_numbers_rise();
}
