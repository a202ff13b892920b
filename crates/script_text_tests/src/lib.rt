//! Floor: program. It promises nothing but that its tests of the texts that are read pass, through public calls; they stand apart, so that
//! proving them doesn't prove the reader again. It never has a function of its own.
#![tactic(auto)]

#[cfg(test)]
mod script_texts;
