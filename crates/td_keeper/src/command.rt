//! What a keeper is told to do, and what it replies.
ghost use Rattle.std.specs.Prelude.{◌≡◌};
ghost use Rattle.td_keeper.specs.Driven.{submitted, submitted_as, released, settled, collected, cut, answered, written, closed};

use crate::receipt::Receipt;
use crate::submit_all::{Group, GroupError};
use td_questions::{Entries, Wanted};
use td_stamp::{Batch, EpochOut};
use td_store::standing::KeeperError;

/// What a keeper is told to do.
#[derive(Debug, Drop)]
pub enum Command {
    /// To submit a batch.
    Submit(Batch),
    /// To submit a batch under a request number.
    SubmitAs(u64, Batch),
    /// To submit a group of batches at once.
    SubmitAll(Group),
    /// To release into the pool's hall the epochs that it lacks.
    Release,
    /// To wait until every released epoch has passed, or the pool is stopped.
    Settle,
    /// To collect what the pool's hall has for it.
    Collect,
    /// To hand out the outputs of one epoch.
    NextOut,
    /// To cut the pool's hall.
    Cut,
    /// To cut it at no epoch above this one.
    CutUpTo(u64),
    /// To answer what is wanted of a fold, of the states after the last epoch.
    Answer(u8, Wanted),
    /// To write the cut that waits.
    WriteCut,
    /// To close at most so many cells that no epoch uses, those that come next.
    CloseFree(u64),
}

/// What it replies.
#[derive(Debug, Drop)]
pub enum Reply {
    /// The batch is acknowledged as this epoch.
    Submitted(u64),
    /// What the submit under a request number came to.
    SubmittedAs(Receipt),
    /// The group is acknowledged as the epochs from the first number up to, and without, the second. So a group of none is said
    /// as well as any.
    SubmittedAll(u64, u64),
    /// So many epochs were released.
    Released(u64),
    /// Every released epoch has passed.
    Settled,
    /// So many epochs were collected.
    Collected(u64),
    /// The outputs of the next epoch, if there is one.
    Out(Option<EpochOut>),
    /// A cut at this epoch was taken.
    CutTaken(u64),
    /// These are the entries that answer, of the states after this epoch.
    Answered {
        epoch: u64,
        entries: Entries,
    },
    /// The cut that waited was written, and its epoch; None where none waited.
    Written(Option<u64>),
    /// These cells are closed.
    Closed,
    /// The command was refused. A batch that was to be submitted comes back.
    Refused {
        error: KeeperError,
        batch: Option<Batch>,
    },
    /// The group was not submitted, and comes back.
    RefusedAll {
        error: GroupError,
        group: Group,
    },
}

impl Reply {
    /// The reply to `Submit`.
    pub fn of_submit(outcome: Result<u64, (KeeperError, Batch)>) -> Reply
        ensures { result ≡ submitted outcome }
    {
        match outcome {
            Ok(epoch) => Reply::Submitted(epoch),
            Err((error, batch)) => Reply::Refused {
                error,
                batch: Some(batch),
            },
        }
    }

    /// The reply to `SubmitAs`.
    pub fn of_submit_as(outcome: Result<Receipt, (KeeperError, Batch)>) -> Reply
        ensures { result ≡ submitted_as outcome }
    {
        match outcome {
            Ok(receipt) => Reply::SubmittedAs(receipt),
            Err((error, batch)) => Reply::Refused {
                error,
                batch: Some(batch),
            },
        }
    }

    /// The reply to `Release`.
    pub fn of_release(outcome: Result<u64, KeeperError>) -> Reply
        ensures { result ≡ released outcome }
    {
        match outcome {
            Ok(count) => Reply::Released(count),
            Err(error) => Reply::Refused { error, batch: None },
        }
    }

    /// The reply to `Settle`.
    pub fn of_settle(outcome: Result<(), KeeperError>) -> Reply
        ensures { result ≡ settled outcome }
    {
        match outcome {
            Ok(()) => Reply::Settled,
            Err(error) => Reply::Refused { error, batch: None },
        }
    }

    /// The reply to `Collect`.
    pub fn of_collect(outcome: Result<u64, KeeperError>) -> Reply
        ensures { result ≡ collected outcome }
    {
        match outcome {
            Ok(count) => Reply::Collected(count),
            Err(error) => Reply::Refused { error, batch: None },
        }
    }

    /// The reply to `Cut` and to `CutUpTo`.
    pub fn of_cut(outcome: Result<u64, KeeperError>) -> Reply
        ensures { result ≡ cut outcome }
    {
        match outcome {
            Ok(epoch) => Reply::CutTaken(epoch),
            Err(error) => Reply::Refused { error, batch: None },
        }
    }

    /// The reply to `Answer`.
    pub fn of_answer(outcome: Result<(u64, Entries), KeeperError>) -> Reply
        ensures { result ≡ answered outcome }
    {
        match outcome {
            Ok((epoch, entries)) => Reply::Answered { epoch, entries },
            Err(error) => Reply::Refused { error, batch: None },
        }
    }

    /// The reply to `WriteCut`.
    pub fn of_write_cut(outcome: Result<Option<u64>, KeeperError>) -> Reply
        ensures { result ≡ written outcome }
    {
        match outcome {
            Ok(epoch) => Reply::Written(epoch),
            Err(error) => Reply::Refused { error, batch: None },
        }
    }

    /// The reply to `CloseFree`.
    pub fn of_close_free(outcome: Result<(), KeeperError>) -> Reply
        ensures { result ≡ closed outcome }
    {
        match outcome {
            Ok(()) => Reply::Closed,
            Err(error) => Reply::Refused { error, batch: None },
        }
    }
}
