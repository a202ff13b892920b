//! Floor: program. It promises nothing but that its tests of the top call on scripts pass, through public calls; they stand apart, so that
//! proving them doesn't prove the top call again. It never has a function of its own.
#![tactic(auto)]

#[cfg(test)]
mod handler_runs;
#[cfg(test)]
mod running;
#[cfg(test)]
mod whole_runs;
