//! Floor: program. It promises nothing but that its tests of `boot` pass, through public calls; they stand apart, so that proving them
//! doesn't prove the top call again. It never has a function of its own.
#![tactic(auto)]

#[cfg(test)]
mod cases;
#[cfg(test)]
mod code;
#[cfg(test)]
mod ends;
#[cfg(test)]
mod many_drivers;
#[cfg(test)]
mod refusals;
#[cfg(test)]
mod rounds;
#[cfg(test)]
mod sample_boots;
#[cfg(test)]
mod services;
