//! A shard of a hall.
ghost use Rattle.std.specs.Prelude.{◌≡◌, []};

use crate::mailbox::Mailbox;
use crate::waiting::Waiting;
use std::alloc::Global;

/// What stands with a shard, of the records whose keys are its own (Naiad, section 3.1): those that wait to be taken, and
/// those that wait for its notifications.
///
/// What distincts have seen (`Seen`) and what folds left (`Versions`) is found by record and by key, each of which is of one
/// shard: a hall keeps them once for all of its shards.
///
/// Its calls are those of its parts: a method here would only hand on.
#[derive(Drop)]
pub struct Shard {
    pub mailbox: Mailbox,
    pub waiting: Waiting,
}

impl Shard {
    /// A shard with nothing in it, which allocates with `alloc`.
    pub fn new(alloc: Global) -> Shard
        ensures mailbox { result.mailbox ≡ record { runs = 0; room = 0; messages = [] } }
        ensures waiting { result.waiting ≡ [] }
    {
        Shard {
            mailbox: Mailbox::new(alloc),
            waiting: Waiting::new(alloc),
        }
    }
}
