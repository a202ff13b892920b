//! Laws of cells. These functions do nothing: their contracts are the laws.
ghost use Rattle.platform_model.specs.Laws.{NumberIsReadBack, OtherCellsStay, RegisterIsReadBack, OtherRegistersStay};
ghost use Rattle.platform_model.specs.Laws.{LastLineHolds, OthersHoldZero, EachHoldsItsOwn};

/// What was written to ports or device bytes is read back, and other cells stay.
pub fn writes_are_local()
    ensures back { NumberIsReadBack }
    ensures stays { OtherCellsStay }
{}

/// What was written to a model-specific register is read back, and other registers stay.
pub fn registers_are_local()
    ensures back { RegisterIsReadBack }
    ensures stays { OtherRegistersStay }
{}

/// What each cell holds at the start.
pub fn last_line_holds()
    ensures value { LastLineHolds }
    ensures zero { OthersHoldZero }
    ensures each { EachHoldsItsOwn }
{}
