//! What the calls of a hall know for the prover alone. A contract of this crate speaks of states that plays reach, and a body of a hall's parts: what
//! leads from one to the other are laws of the crates below. One call brings them all, so that code has one line that does nothing, and each such
//! function has the same.
ghost use Rattle.td_core.specs.Known.{Known};

use td_calls::Law;
use td_machine::laws::{
    active_of_plan, asked_where_notified, bags_of_states, come_of_plan, delivered_at_once,
    exact_work_drained, in_parts, never_stuck, none_left, plays_join, reached, reached_in_order,
    sends_of_plan, sent_of_plan, stamps_move, turns_of_plan, what_waits,
};
use td_plan::laws::look_ups;
use td_progress::laws::{counted, in_any_order};
use td_shard::laws::tasks;
use td_stamp::laws::time_list_order;
use td_task::laws::{a_map_sends, a_notification_leaves, a_notification_sends, counts};

/// The laws on which the calls of a hall rest.
pub(crate) fn known<L: Law>()
    ensures { Known L.answers }
{
    reached::<L>();
    reached_in_order::<L>();
    active_of_plan::<L>();
    asked_where_notified::<L>();
    bags_of_states();
    none_left();
    what_waits();
    in_parts();
    stamps_move::<L>();
    delivered_at_once::<L>();
    sends_of_plan::<L>();
    turns_of_plan();
    sent_of_plan();
    come_of_plan::<L>();
    plays_join::<L>();
    never_stuck::<L>();
    exact_work_drained::<L>();
    look_ups();
    a_map_sends::<L>();
    a_notification_sends::<L>();
    a_notification_leaves::<L>();
    counts::<L>();
    counted();
    in_any_order();
    tasks();
    time_list_order();
}
