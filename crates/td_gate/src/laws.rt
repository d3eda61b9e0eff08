//! What holds of regions by their definitions, for every lawful disk. A caller that needs one of
//! these calls it, which does nothing, and learns its clause.
//!
//! They speak of sequences of puts, since a clause cannot range over steps of any kind.
ghost use Rattle.std.specs.Prelude.{◌≡◌, ◌<◌, ◌^◌, ◌++◌, [], ◌∷◌, ℕ, ℤ, FitsSigned, List, length, drop};
ghost use Rattle.std.specs.Int.{w64};
ghost use Rattle.td_disk.specs.Disk.{ImagesFollow, NoNewImages, TimePasses, IsDurable};
ghost use Rattle.td_gate.specs.declared.region.Region.{Region as AnyRegion};
ghost use Rattle.td_gate.specs.CrashSafe.{CrashSafe, Unchanged};
ghost use Rattle.td_gate.specs.declared.fields.Front.{Front as AnyFront};
ghost use Rattle.td_gate.specs.Fields.{FitsFront, front_bytes, front_in, front_len, number_at, number_bytes};
ghost use Rattle.td_gate.specs.Fields.{signed_at, signed_bytes};
ghost use Rattle.td_gate.specs.Reads.{IsRead};
ghost use Rattle.td_gate.specs.Region.{opened, IsSettled, IsOpen, Closes, Fills, Opens, Puts};
ghost use Rattle.td_gate.specs.Regions.{Apart, ApartFromAll, KeepsRegion, Put, PutsDone, PutsInTurn};

use td_disk::Disk;

/// A put into one region leaves what an image has in a region apart from it.
pub fn put_leaves_others()
    ensures { (r s : AnyRegion) (payload old new : List ℕ)
        → Apart r s
        → Puts r payload old new
        → opened s new ≡ opened s old }
{}

/// So does a sequence of puts, wherever it is cut off.
pub fn puts_leave_others()
    ensures { (puts : List Put) (s : AnyRegion) (old new : List ℕ)
        → ApartFromAll s puts
        → PutsInTurn puts old new
        → opened s new ≡ opened s old }
{}

/// On a disk where a crash leaves what is read, each region is settled.
pub fn durable_is_settled<D: Disk>()
    ensures { (d : D) (r : AnyRegion) → IsDurable (D.view d).state → IsSettled r (D.view d).state }
{}

/// Where a region is settled, each image has it as it is read.
pub fn settled_is_read<D: Disk>()
    ensures { (d : D) (r : AnyRegion) (c : List ℕ)
        → (D.view d).lawful
        → IsSettled r (D.view d).state
        → (D.view d).state.images c
        → opened r c ≡ opened r (D.view d).state.bytes }
{}

/// Calls that make no new image, as reads and syncs, are a sequence of no puts.
pub fn no_puts<D: Disk>()
    ensures none { (d : D) → (D.view d).lawful → CrashSafe (PutsInTurn []) (D.view d).state (D.view d).state }
    ensures read { (old new : D)
        → CrashSafe Unchanged (D.view old).state (D.view new).state
        → CrashSafe (PutsInTurn []) (D.view old).state (D.view new).state }
    ensures begun { (old new : D)
        → (D.view old).lawful
        → NoNewImages (D.view old).state (D.view new).state
        → TimePasses (D.view old).state (D.view new).state
        → CrashSafe (PutsInTurn []) (D.view old).state (D.view new).state }
    ensures done { (old new : D)
        → NoNewImages (D.view old).state (D.view new).state
        → ImagesFollow (PutsDone []) (D.view old).state (D.view new).state }
{}

/// Calls that make no new image, as reads and syncs, change no image, and a disk that was durable
/// and reads as before is durable after them.
pub fn unchanged<D: Disk>()
    ensures none { (d : D) → (D.view d).lawful → CrashSafe Unchanged (D.view d).state (D.view d).state }
    ensures call { (old new : D)
        → (D.view old).lawful
        → NoNewImages (D.view old).state (D.view new).state
        → TimePasses (D.view old).state (D.view new).state
        → CrashSafe Unchanged (D.view old).state (D.view new).state }
    ensures durable { (old new : D)
        → (D.view new).lawful
        → IsDurable (D.view old).state
        → (D.view new).state.bytes ≡ (D.view old).state.bytes
        → CrashSafe Unchanged (D.view old).state (D.view new).state
        → IsDurable (D.view new).state }
{}

/// Runs of calls that change no image, and of calls that only read, one after another.
pub fn reads_in_turn<D: Disk>()
    ensures unchanged { (old mid new : D)
        → (D.view mid).lawful
        → CrashSafe Unchanged (D.view old).state (D.view mid).state
        → CrashSafe Unchanged (D.view mid).state (D.view new).state
        → CrashSafe Unchanged (D.view old).state (D.view new).state }
    ensures none { (d : D) → IsRead D.view d d }
    ensures read { (old mid new : D)
        → IsRead D.view old mid
        → IsRead D.view mid new
        → IsRead D.view old new }
{}

/// One put is a sequence of one.
pub fn one_put<D: Disk>()
    ensures begun { (put : Put) (old new : D)
        → CrashSafe (Puts put.region put.payload) (D.view old).state (D.view new).state
        → CrashSafe (PutsInTurn (put ∷ [])) (D.view old).state (D.view new).state }
    ensures done { (put : Put) (old new : D)
        → (D.view new).lawful
        → CrashSafe (Puts put.region put.payload) (D.view old).state (D.view new).state
        → IsOpen put.region put.payload (D.view new).state
        → ImagesFollow (PutsDone (put ∷ [])) (D.view old).state (D.view new).state }
{}

/// Each step of a put, made alone, is a put that was cut off or done.
pub fn steps_are_puts<D: Disk>()
    ensures close { (r : AnyRegion) (payload : List ℕ) (old new : D)
        → CrashSafe (Closes r) (D.view old).state (D.view new).state
        → CrashSafe (Puts r payload) (D.view old).state (D.view new).state }
    ensures fill { (r : AnyRegion) (payload : List ℕ) (old new : D)
        → CrashSafe (Fills r) (D.view old).state (D.view new).state
        → CrashSafe (Puts r payload) (D.view old).state (D.view new).state }
    ensures open { (r : AnyRegion) (payload : List ℕ) (old new : D)
        → CrashSafe (Opens r payload) (D.view old).state (D.view new).state
        → CrashSafe (Puts r payload) (D.view old).state (D.view new).state }
{}

/// A sequence of puts that are done, and another sequence after it.
pub fn puts_in_turn<D: Disk>()
    ensures begun { (puts more : List Put) (old mid new : D)
        → CrashSafe (PutsInTurn puts) (D.view old).state (D.view mid).state
        → ImagesFollow (PutsDone puts) (D.view old).state (D.view mid).state
        → CrashSafe (PutsInTurn more) (D.view mid).state (D.view new).state
        → CrashSafe (PutsInTurn (puts ++ more)) (D.view old).state (D.view new).state }
    ensures done { (puts more : List Put) (old mid new : D)
        → ImagesFollow (PutsDone puts) (D.view old).state (D.view mid).state
        → ImagesFollow (PutsDone more) (D.view mid).state (D.view new).state
        → ImagesFollow (PutsDone (puts ++ more)) (D.view old).state (D.view new).state }
{}

/// A sequence of puts keeps each settled region that is apart from theirs, in every image since its
/// start, also where it was cut off.
pub fn puts_keep_others<D: Disk>()
    ensures { (puts : List Put) (s : AnyRegion) (old new : D)
        → (D.view old).lawful
        → (D.view new).lawful
        → ApartFromAll s puts
        → IsSettled s (D.view old).state
        → CrashSafe (PutsInTurn puts) (D.view old).state (D.view new).state
        → KeepsRegion s (D.view old).state (D.view new).state }
{}

/// What the module `fields` writes is read back, whatever follows it.
pub fn read_back()
    ensures number { (n x : ℕ) (rest : List ℕ) → x < 256 ^ n → number_at n 0 (number_bytes n x ++ rest) ≡ x }
    ensures signed { (z : ℤ) (rest : List ℕ) → FitsSigned w64 z → signed_at 0 (signed_bytes z ++ rest) ≡ z }
    ensures front { (f : AnyFront) (rest : List ℕ) → FitsFront f → front_in (front_bytes f ++ rest) ≡ f }
    ensures past { (f : AnyFront) (rest : List ℕ) → drop front_len (front_bytes f ++ rest) ≡ rest }
    ensures size { (f : AnyFront) → length (front_bytes f) ≡ front_len }
{}
