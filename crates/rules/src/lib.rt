// The rules of the table, once over any form of it, and the laws that follow from them: definitions and theorems. In code there is what a table of any form answers with.
#![tactic(auto)]

mod answers;

pub use answers::{key_or_end, turned_away};
