//! Floor: core. It promises nothing but that its tests of closed groups pass, through public calls: what `mm_groups` answers is compared with
//! a look at every unit and at every two handlers, and with what was worked out by hand. It never has a function of its own.
#![tactic(auto)]

#[cfg(test)]
mod all_images;
#[cfg(test)]
mod cases;
#[cfg(test)]
mod drivers;
#[cfg(test)]
mod plain;
#[cfg(test)]
mod rights;
#[cfg(test)]
mod shared_guids;
#[cfg(test)]
mod shared_units;
#[cfg(test)]
mod window_ends;
