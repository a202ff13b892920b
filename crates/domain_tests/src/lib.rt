//! Floor: supervisor. It promises nothing but that its tests of the accesses of domains pass, through public calls; they stand apart, so that
//! proving them doesn't prove domains again. It never has a function of its own.
#![tactic(auto)]

#[cfg(test)]
mod accesses;
#[cfg(test)]
mod byte_code;
#[cfg(test)]
mod denials;
#[cfg(test)]
mod edges;
