// Why a disk was not copied.
ghost use Rattle.std.specs.Prelude.{◌≡◌};
ghost use Rattle.td_store.specs.declared.copy.error.CopyError.TheVariants.{New as OfNew};

use crate::standing::KeeperError;
use thiserror::Error;

/// Why a disk was not copied.
#[derive(Clone, Copy, Debug, PartialEq, Eq, Error)]
pub enum CopyError {
    /// The old disk has no such epoch: its checkpoint's is `kept`, and the last that it tells is `told`.
    #[error("no such epoch: {until}, kept {kept}, told {told}")]
    Until { until: u64, kept: u64, told: u64 },
    /// The checkpoint has more states than a slot of the new disk holds.
    #[error("too many keys: {states}, K is {most}")]
    TooManyKeys { states: u64, most: u32 },
    /// There are more epochs after the checkpoint than the new disk has cells.
    #[error("journal full: {epochs} epochs, N is {most}")]
    Full { epochs: u64, most: u32 },
    /// An epoch has more records than a cell of the new disk holds.
    #[error("too many records: epoch {epoch} has {records}, M is {most}")]
    TooManyRecords { epoch: u64, records: u64, most: u32 },
    /// The new disk has fewer bytes than its shape takes.
    #[error("shape")]
    Shape,
    /// The new disk has a head already.
    #[error("formatted")]
    Formatted,
    /// The old disk tells nothing or failed, or memory ran out for what it tells.
    #[error("{0}")]
    Keeper(KeeperError),
    /// The new disk failed, or memory ran out for what is put on it.
    #[error("{0}")]
    New(KeeperError),
}

/// What a call of the new disk refuses.
impl From<KeeperError> for CopyError {
    ghost from_gives = { λ d e. e ≡ OfNew d };

    fn from(error: KeeperError) -> CopyError {
        CopyError::New(error)
    }
}
