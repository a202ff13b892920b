//! Floor: program. It promises nothing but that its tests of the top call on volumes pass, through public calls; they stand apart, so that
//! proving them doesn't prove the top call again. It never has a function of its own.
#![tactic(auto)]

#[cfg(test)]
mod cases;
#[cfg(test)]
mod driver_words;
#[cfg(test)]
mod expression_words;
#[cfg(test)]
mod image_words;
#[cfg(test)]
mod policy_runs;
#[cfg(test)]
mod volume_runs;
#[cfg(test)]
mod words_of_files;
