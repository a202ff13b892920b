//! Floor: program. It promises nothing but that its tests of handlers in byte code pass, through public calls of `serve`; they stand apart,
//! so that proving them doesn't prove the top call again. It never has a function of its own.
#![tactic(auto)]

#[cfg(test)]
mod cases;
#[cfg(test)]
mod chains;
#[cfg(test)]
mod code;
#[cfg(test)]
mod denials;
#[cfg(test)]
mod faults;
#[cfg(test)]
mod large_message;
#[cfg(test)]
mod many_lanes;
#[cfg(test)]
mod messages;
#[cfg(test)]
mod poked_requests;
#[cfg(test)]
mod saved_registers;
#[cfg(test)]
mod statuses;
#[cfg(test)]
mod usual_serves;
