//! Floor: program. It promises nothing but that its tests of the top call at its limits pass, through public calls; they stand apart, so that
//! proving them doesn't prove the top call again. It never has a function of its own.
#![tactic(auto)]

#[cfg(test)]
mod many_files;
#[cfg(test)]
mod script_limits;
#[cfg(test)]
mod texts;
#[cfg(test)]
mod volume_limits;
