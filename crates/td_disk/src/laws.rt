//! What holds of the definitions alone.
ghost use Rattle.std.specs.Prelude.{ℕ, List, length};
ghost use Rattle.td_disk.specs.Disk.{SameOutside};
ghost use Rattle.td_disk.specs.Record.{Contents, IsImage, written};

/// A crash of the disk in memory may leave any bytes in the range of a write, over any image of
/// before it.
pub fn write_leaves_any_bytes()
    ensures { (k : Contents) (at : ℕ) (bytes d c : List ℕ) → IsImage k d
        → SameOutside at (length bytes) d c → IsImage (written at bytes k) c }
{}
