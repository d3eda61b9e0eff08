//! Laws of the definitions. Each is the contract of a function that does nothing.
ghost use Rattle.std.specs.Prelude.{◌≡◌, ◌⊎◌, ◌+◌, ◌-◌, ◌<◌, ◌≤◌, ◌^◌, Bool, true, List, ℕ, length, Some, Result, Ok};
ghost use Rattle.td_plan.specs.Lines.{Line};
ghost use Rattle.td_gate.specs.Region.{Puts};
ghost use Rattle.td_gate.specs.Regions.{Apart, Replaces};
ghost use Rattle.td_head.specs.Layout.{Sizes, head_len, head, head_a, head_b, is_shape, size_of};
ghost use Rattle.td_head.specs.Head.{headed, is_version, TellsCanonical, IsHeaded, head_bytes, candidate, raised, raised_bytes};
ghost use Rattle.td_head.specs.declared.head.Head.{Head as AnyHead};
ghost use Rattle.td_head.specs.declared.error.HeadError.{HeadError as AnyHeadError};
ghost use Rattle.td_head.specs.Images.{SameHeads, IsFirstHead};
ghost use Rattle.td_plan.specs.Faults.{IsPlan};

/// The two heads have no byte in common.
pub fn heads_are_apart()
    ensures { Apart head_a head_b }
{}

/// What the heads tell depends on what they hold and on the disk's size alone, and is one answer.
pub fn heads_tell()
    ensures head { (canonical : Bool) (plan : List Line) (old new : List ℕ)
        → SameHeads old new → headed canonical plan new ≡ headed canonical plan old }
    ensures text { (canonical : Bool) (old new : List ℕ)
        → SameHeads old new → TellsCanonical canonical old → TellsCanonical canonical new }
    ensures limits { (canonical : Bool) (plan : List Line) (image : List ℕ) (h : AnyHead)
        → headed canonical plan image ≡ Ok h → (is_shape h.shape ≡ true) × (size_of h.shape ≤ length image) }
    ensures version { (canonical : Bool) (plan : List Line) (image : List ℕ) (h : AnyHead)
        → headed canonical plan image ≡ Ok h → is_version h.version ≡ true }
    ensures one { (plan : List Line) (image : List ℕ) (x y : Result AnyHead AnyHeadError)
        → IsHeaded plan image x → IsHeaded plan image y → x ≡ y }
{}

/// What is written for a plan has a head's length and is read back, in either place.
pub fn heads_read_back()
    ensures size { (version generation : ℕ) (sizes : Sizes) (text : List ℕ)
        → length text ≤ 4096 → length (head_bytes version generation sizes text) ≡ head_len }
    ensures fields { (side version generation : ℕ) (sizes : Sizes) (text : List ℕ)
        → version < 2 ^ 32 → generation < 2 ^ 64 → is_shape sizes ≡ true → length text ≤ 4096
        → candidate side (Some (head_bytes version generation sizes text))
        ≡ Some (record {
          side = side;
          version = version;
          generation = generation;
          sizes = sizes;
          text_len = length text;
          text = text;
        }) }
{}

/// Heads as a format leaves them tell version 2, head A, generation 1 and the shape.
pub fn first_head_tells()
    ensures { (plan : List Line) (sizes : Sizes) (image : List ℕ)
        → IsPlan plan → IsFirstHead plan sizes image
        → (headed true plan image ≡ Ok (record { version = 2; side = 0; generation = 1; shape = sizes }))
        × TellsCanonical true image }
{
    td_plan::laws::canonical_text();
}

/// While the head that follows one is put beside it, the heads tell what they told or the head that follows, whatever
/// stood in that place; once it is put, the head that follows.
pub fn other_head_is_put()
    ensures begun { (canonical : Bool) (plan : List Line) (old new : List ℕ) (h : AnyHead)
        → IsPlan plan → headed canonical plan old ≡ Ok h → TellsCanonical canonical old → h.generation + 1 < 2 ^ 64
        → Puts (head (1 - h.side)) (raised_bytes h plan) old new
        → ((headed canonical plan new ≡ Ok h) × TellsCanonical canonical new)
        ⊎ ((headed canonical plan new ≡ Ok (raised h)) × TellsCanonical canonical new) }
    ensures done { (canonical : Bool) (plan : List Line) (old new : List ℕ) (h : AnyHead)
        → IsPlan plan → headed canonical plan old ≡ Ok h → TellsCanonical canonical old → h.generation + 1 < 2 ^ 64
        → Replaces (head (1 - h.side)) (raised_bytes h plan) old new
        → (headed canonical plan new ≡ Ok (raised h)) × TellsCanonical canonical new }
{
    td_plan::laws::canonical_text();
    td_gate::laws::put_leaves_others();
}
