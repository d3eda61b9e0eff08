// What every lawful disk keeps to. Of a disk that claims no law nothing is said of its bytes.
//
// Lawfulness is a premise inside the clauses on bytes, and never a `requires`. So the program runs the same code over a file,
// which claims no law. Clauses on size, on failures and on lawfulness itself have no such premise.
ghost use Rattle.std.specs.Prelude.{◌≡◌, ◌+◌, ◌-◌, ◌^◌, ◌<◌, ◌≤◌, ◌↔◌, ℕ, List, length, Result, OnOk, IsErr, ⊤};
ghost use Rattle.td_disk.specs.declared.error.Fault.{Fault as AnyFault};
ghost use Rattle.td_disk.specs.Disk.{DiskView, bytes_at, SameOutside, ImagesFollow, NoNewImages, IsDurable, TimePasses, CountsFailures};

use crate::Fault;

/// A disk of a fixed number of bytes. Between two syncs a crash may leave any bytes in each range
/// that was written, and no other byte changes. Offsets and lengths are in bytes.
pub trait Disk {
    /// What contracts see of it: how many bytes it has; how many calls have failed, a count that stops at the top of a `u64`; whether it is
    /// claimed to keep the laws below; and what it holds, and what a crash may leave of that. An answer other than a failure leaves the
    /// count as it was: so a call above that answers `Memory` has met no failed call. It is one member and not four, so that a definition
    /// takes one view or two.
    ghost view: { Self → DiskView };

    /// What a kind of disk promises of a read beyond the clauses below: of the disk before, the offset, the bytes given, the
    /// answer and the disk after. Clauses on the methods of an `impl` would replace those here, and generic code would not see
    /// them.
    ghost read_gives: { Self → ℕ → List ℕ → Result ⊤ AnyFault → Self → Type 0 } = { λ _ _ _ _ _. Unit {0} };

    /// The same of a write, of the bytes written.
    ghost write_gives: { Self → ℕ → List ℕ → Result ⊤ AnyFault → Self → Type 0 } = { λ _ _ _ _ _. Unit {0} };

    /// The same of a sync.
    ghost sync_gives: { Self → Result ⊤ AnyFault → Self → Type 0 } = { λ _ _ _. Unit {0} };

    /// How many bytes the disk has, the same for ever.
    fn size(&self) -> u64
        ensures { result ≡ (view self.now).capacity };

    /// Fills `bytes` with what stands at the offset `at`. A failure leaves any bytes in `bytes`.
    fn read(&mut self, at: u64, bytes: &mut [u8]) -> Result<(), Fault>
        requires { at + length bytes.old ≤ (view self.old).capacity }
        ensures size { (view self.new).capacity ≡ (view self.old).capacity }
        ensures lawful { (view self.old).lawful ↔ (view self.new).lawful }

        // A failure is counted, and nothing else is; where the count stands at its top each call fails.
        ensures cause { CountsFailures result (view self.old).failures (view self.new).failures }
        ensures bound { (view self.new).failures < 2 ^ 64 }
        ensures top { (view self.old).failures ≡ 2 ^ 64 - 1 → IsErr result }

        ensures read { OnOk result ((view self.old).lawful
            → bytes.new ≡ bytes_at at (length bytes.old) (view self.old).state.bytes) }
        ensures same { (view self.old).lawful → (view self.new).state.bytes ≡ (view self.old).state.bytes }
        ensures images { (view self.old).lawful → NoNewImages (view self.old).state (view self.new).state }
        ensures time { (view self.old).lawful → TimePasses (view self.old).state (view self.new).state }
        ensures gives { read_gives self.old at bytes.new result self.new };

    /// Writes `bytes` at the offset `at`. Until a sync succeeds, a crash may leave any bytes in the
    /// range. After a failure the range may also read as any bytes.
    fn write(&mut self, at: u64, bytes: &[u8]) -> Result<(), Fault>
        requires { at + length bytes.now ≤ (view self.old).capacity }
        ensures size { (view self.new).capacity ≡ (view self.old).capacity }
        ensures lawful { (view self.old).lawful ↔ (view self.new).lawful }

        ensures cause { CountsFailures result (view self.old).failures (view self.new).failures }
        ensures bound { (view self.new).failures < 2 ^ 64 }
        ensures top { (view self.old).failures ≡ 2 ^ 64 - 1 → IsErr result }

        ensures written { OnOk result ((view self.old).lawful
            → bytes_at at (length bytes.now) (view self.new).state.bytes ≡ bytes.now) }
        ensures others { (view self.old).lawful
            → SameOutside at (length bytes.now) (view self.old).state.bytes (view self.new).state.bytes }
        ensures images { (view self.old).lawful
            → ImagesFollow (SameOutside at (length bytes.now)) (view self.old).state (view self.new).state }
        ensures time { (view self.old).lawful → TimePasses (view self.old).state (view self.new).state }
        ensures gives { write_gives self.old at bytes.now result self.new };

    /// Once it succeeds, a crash leaves what a read gives. A failure may change what is read to
    /// another image, and makes no image possible that was not so before.
    fn sync(&mut self) -> Result<(), Fault>
        ensures size { (view self.new).capacity ≡ (view self.old).capacity }
        ensures lawful { (view self.old).lawful ↔ (view self.new).lawful }

        ensures cause { CountsFailures result (view self.old).failures (view self.new).failures }
        ensures bound { (view self.new).failures < 2 ^ 64 }
        ensures top { (view self.old).failures ≡ 2 ^ 64 - 1 → IsErr result }

        ensures same { OnOk result ((view self.old).lawful
            → (view self.new).state.bytes ≡ (view self.old).state.bytes) }
        ensures durable { OnOk result ((view self.old).lawful → IsDurable (view self.new).state) }
        ensures images { (view self.old).lawful → NoNewImages (view self.old).state (view self.new).state }
        ensures time { (view self.old).lawful → TimePasses (view self.old).state (view self.new).state }
        ensures gives { sync_gives self.old result self.new };

    /// What is read is what a crash may leave.
    ghost reads_image: { (d : Self) → (view d).lawful → (view d).state.images (view d).state.bytes };

    /// Each image has the disk's size.
    ghost image_size: { (d : Self) (c : List ℕ) → (view d).lawful → (view d).state.images c → length c ≡ (view d).capacity };

    /// This moment is one of those since an earlier one.
    ghost counts_now: { (d : Self) (t : ℕ) (c : List ℕ) → (view d).lawful → t ≤ (view d).state.moment → (view d).state.images c → (view d).state.since t c };

    /// Since this moment there is no other.
    ghost only_now: { (d : Self) (c : List ℕ) → (view d).lawful → (view d).state.since (view d).state.moment c → (view d).state.images c };
}
