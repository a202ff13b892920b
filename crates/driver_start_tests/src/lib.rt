//! Floor: core. It promises nothing but that its tests of the start of a driver pass, through that crate's public calls; they stand apart,
//! so that proving them doesn't prove the start again. It never has a function of its own.
#![tactic(auto)]

#[cfg(test)]
mod ends;
#[cfg(test)]
mod places;
#[cfg(test)]
mod samples;
#[cfg(test)]
mod sequences;
#[cfg(test)]
mod withdrawals;
