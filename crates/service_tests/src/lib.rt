//! Floor: supervisor. It promises nothing but that its tests of the services of domains pass, through public calls; they stand apart, so that
//! proving them doesn't prove services again. It never has a function of its own.
#![tactic(auto)]

#[cfg(test)]
mod cells;
#[cfg(test)]
mod drivers;
#[cfg(test)]
mod interfaces;
#[cfg(test)]
mod pools;
