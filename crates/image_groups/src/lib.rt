//! Floor: supervisor. It promises nothing by itself: it says what images may reach, what groups of images are closed, and what is left of a
//! state where all that isn't granted to a group is erased; its laws are what every claim of isolation rests on. It never decides an access.
#![tactic(auto)]

pub mod laws;
