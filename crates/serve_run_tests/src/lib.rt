//! Floor: program. It promises nothing but that its tests of `serve` pass, through public calls; they stand apart, so that proving them
//! doesn't prove the top call again. It never has a function of its own.
#![tactic(auto)]

#[cfg(test)]
mod driver_serves;
#[cfg(test)]
mod refusals;
#[cfg(test)]
mod sample_serves;
