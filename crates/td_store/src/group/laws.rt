//! Laws of the definitions. Each is the contract of a function that does nothing.
ghost use Rattle.td_store.specs.group.Safe.{StaysTold, GroupIsTold, GroupIsReady, GroupIsSafe, GroupIsKept, ClosingIsSafe, ClosingIsKept};

use td_disk::Disk;

/// While the cell of the next epoch is as it was or closed, and the cells of the epochs before it hold the same, a ring tells what it told,
/// whatever stands in the cells behind; once a group of epochs stands in its cells, and nothing follows it there, it tells these too.
pub fn group_is_told()
    ensures still { StaysTold }
    ensures more { GroupIsTold }
{
    td_journal::laws::cells_read_back();
}

/// The crash clause of a group that is submitted: while the ring is made ready for it, an image tells what was told; then, while its first
/// cell is opened, that, or that and the whole group; and once it is, the latter.
pub fn group_is_safe<D: Disk>()
    ensures ready { GroupIsReady D.view }
    ensures begun { GroupIsSafe D.view }
    ensures done { GroupIsKept D.view }
{
    group_is_told();
    td_head::laws::heads_tell();
    td_slots::laws::slots_tell();
    td_journal::laws::cells();
    crate::standing::laws::parts_are_apart();
}

/// The crash clause of cells that are closed, of which no told epoch uses one: an image tells what was told.
pub fn closing_is_safe<D: Disk>()
    ensures begun { ClosingIsSafe D.view }
    ensures done { ClosingIsKept D.view }
{
    group_is_told();
    td_head::laws::heads_tell();
    td_slots::laws::slots_tell();
    td_journal::laws::cells();
    crate::standing::laws::parts_are_apart();
}
