//! Laws of starts. These functions do nothing: their contracts are the laws.
ghost use Rattle.driver_start.specs.Laws.{FailuresLeaveCells, NoStartLeavesAll};

/// Where an entry fails, the host after the start is the host before it, with the cells as the entry left them.
pub fn a_failed_start_leaves_cells_alone()
    ensures { FailuresLeaveCells }
{}

/// Where there are no pages, or too many images, the start changes nothing and records nothing.
pub fn no_start_leaves_all()
    ensures { NoStartLeavesAll }
{}
