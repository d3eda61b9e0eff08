//! What a disk stands for, and the calls that change that: one epoch or a group of epochs is submitted, states are written, the head is
//! raised, cells that no told epoch uses are closed, and a new disk is made to tell what another one tells.
//!
//! Nothing here speaks of a hall, a law or closures, so the laws and the wrong bodies of the calls that write are checked without the
//! engine. For example a disk that stops while epochs 7, 8 and 9 are put as a group tells the epochs up to 6, or up to 9.
#![tactic(auto)]

pub mod copy;
pub mod group;
pub mod standing;
