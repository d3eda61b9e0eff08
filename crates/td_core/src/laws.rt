//! Laws of halls. Each is the contract of a function that calls the laws that it follows from. That outputs and states are the
//! batch meaning's is said by `collect`, `cut` and `cut_at` of their own answers, and here of any hall. The law is for a caller
//! that finds a hall behind a lock and knows nothing of it but its type.
ghost use Rattle.td_machine.specs.Reached.{IsReached};
ghost use Rattle.td_machine.specs.Sound.{Confluence, Sound};

use crate::hall::Hall;
use td_calls::Law;
use td_machine::laws::reached;

/// Each hall that anybody can hold is in a state that plays from an opening reach, and that state is sound: the outputs of
/// its passed epochs that were not collected, and the states at its passed epochs, are those of the batch meaning of what was
/// released since its base, from the states of the base.
pub fn each_is_sound<L: Law>(hall: &Hall<L>)
    ensures reached { IsReached L.answers hall.now }
    ensures sound { Sound L.answers hall.now }
{
    reached::<L>();
    let _ = &hall.parts;
}

/// Confluence: whatever order the takes and gives fall in, with any number of shards, the outputs that a play collects are
/// the first outputs of the batch meaning of what it released, and its cuts have the batch meaning's states.
pub fn confluence<L: Law>()
    ensures { Confluence L.answers }
{
    td_machine::laws::confluence::<L>();
}
