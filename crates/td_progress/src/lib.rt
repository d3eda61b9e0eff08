//! Which pointstamps are active, how often each, and which of them no other holds back.
//!
//! A frontier is asked for often, and epochs may be open by the thousands. So no count of precursors is stored whole. Each active
//! pointstamp has its gap: what its count has more than that of the same place and counters in the active epoch before. A
//! pointstamp that comes or goes changes one gap in each place and counters that it could result in.
//!
//! For example a place has pointstamps of the epochs 3, 5 and 9, and one of epoch 4 elsewhere could result in it. Their gaps are
//! 1, 2 and 1, since each counts itself. The first is in the frontier: its gap is one.
#![tactic(auto)]

mod chain;
mod held;
pub mod laws;
mod table;
mod ways;

pub use chain::FrontierStamps;
pub use table::Table;
pub use td_stamp::StampError as ProgressError;
