// A place of the lent table: its key, which stands in a column of keys, and its body, bytes that are one track. What stands where is said in `memory`, and what
// any values mean in `track`: an ME whose TYPE is not of its group says 'none heard', and a position whose mark is not set is none.
#![tactic(auto)]

mod read;
mod write;

pub use read::{latitude_of, load};
pub use write::{above_pole, store};
