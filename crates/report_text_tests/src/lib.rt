//! Floor: program. It promises nothing but that its tests of the texts that are written pass, through public calls; they stand apart, so
//! that proving them doesn't prove the writer again. It never has a function of its own.
#![tactic(auto)]

#[cfg(test)]
mod boot_texts;
#[cfg(test)]
mod report_texts;
