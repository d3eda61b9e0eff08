//! Laws of halls that are lent.
ghost use Rattle.td_machine.specs.Reached.{IsReached};
ghost use Rattle.td_machine.specs.Sound.{Sound};

use crate::any_hall::AnyHall;
use td_calls::Law;

/// Each hall that anybody can hold or lend is in a state that plays from an opening reach, and that state is sound: its outputs and
/// its states are those of the batch meaning. So a hall under a lock is, whatever workers did to it.
pub fn each_is_sound<L: Law, H: AnyHall<L>>(hall: &H)
    ensures reached { IsReached L.answers (H.state hall.now) }
    ensures sound { Sound L.answers (H.state hall.now) }
{
    td_core::laws::each_is_sound(hall.hall());
}
