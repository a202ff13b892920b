//! What a whole script says.
use crate::Event;
use mm_base::{Handler, List, Opening};

/// A script: how many lanes there are and how many data words each has, what the cells hold at the start, the stub
/// handlers in order, and what happens.
#[derive(Debug, Drop)]
pub struct Script {
    pub lanes: u32,
    pub words: u32,
    pub opening: Opening,
    pub handlers: List<Handler>,
    pub events: List<Event>,
}
