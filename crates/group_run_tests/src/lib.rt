//! Floor: program. It promises nothing but that its tests of groups of images pass, through public calls of `boot` and `serve`; they stand
//! apart, so that proving them doesn't prove the top call again. It never has a function of its own.
#![tactic(auto)]

#[cfg(test)]
mod cases;
#[cfg(test)]
mod cell_rules;
#[cfg(test)]
mod code;
#[cfg(test)]
mod handlers;
#[cfg(test)]
mod hostile_neighbours;
#[cfg(test)]
mod port_rules;
#[cfg(test)]
mod rules;
#[cfg(test)]
mod sample_pair;
