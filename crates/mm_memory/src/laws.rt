//! Laws of memory.
ghost use Rattle.mm_memory.specs.Laws.{PagesAreBytes, PieceIsReadBack, RestStays};

/// Bytes are those of the pages that they lie in.
pub fn pages_are_bytes()
    ensures { PagesAreBytes }
{}

/// What was written is read back, and what stands before it or after it stays.
pub fn writes_are_local()
    ensures back { PieceIsReadBack }
    ensures stays { RestStays }
{}
