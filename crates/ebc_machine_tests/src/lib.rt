//! Floor: byte code. It promises nothing but that its tests of the byte code machine pass, through the machine's public calls; they stand
//! apart, so that proving them doesn't prove the machine again. It never has a function of its own.
#![tactic(auto)]

#[cfg(test)]
mod arithmetic;
#[cfg(test)]
mod cases;
#[cfg(test)]
mod comparisons;
#[cfg(test)]
mod control;
#[cfg(test)]
mod encodings;
#[cfg(test)]
mod invocations;
#[cfg(test)]
mod moves;
#[cfg(test)]
mod order;
#[cfg(test)]
mod programs;
#[cfg(test)]
mod services;
#[cfg(test)]
mod stack_words;
