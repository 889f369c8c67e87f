// Addercoil for C: functions on numbers and lent arrays alone, each a call of the crate that does the work. The header is include/addercoil.h; those of its functions that show what a table holds are in `display`, and those that check what the others say in `audit`.
#![tactic(auto)]

pub mod blocks;
mod done;
pub mod figures;
pub mod me;
pub mod numbers;
pub mod spots;
pub mod stamped;
pub mod tables;
pub mod version;
