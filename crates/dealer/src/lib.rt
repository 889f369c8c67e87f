// Addercoil for C, the functions for several tables side by side. They are an object of their own in the archive: what accepts a message has one caller in each, and stays in its place.
#![tactic(auto)]

pub mod joint;
pub mod key;
