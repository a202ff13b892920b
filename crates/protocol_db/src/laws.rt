//! Laws of rows, and the limits of a database. These functions do nothing: their contracts are the laws.
ghost use Rattle.std.specs.Prelude.{◌≡◌};
ghost use Rattle.protocol_db.specs.Laws.{EachIsFound, FirstIsAtZero, FirstStays, ForgottenHasNone, FoundIsThere, InstalledIsFound, InstalledIsLast};
ghost use Rattle.protocol_db.specs.Laws.{LocatedIsFound, NewIsFresh, NextNeverFalls, OthersAreFound, OthersKeepTheirs, OthersStay};
ghost use Rattle.protocol_db.specs.Laws.{RemovedGivesBack, RemovedIsGone, UnknownHasNone};

use crate::{FIRST_HANDLE, MOST_OF_OWNER};

/// Rows of one handle and GUID are one; a handle that isn't there has no interface, and one that has an interface is there.
pub fn one_row_each()
    ensures each { EachIsFound }
    ensures none { UnknownHasNone }
    ensures there { FoundIsThere }
{}

/// What `install` leaves: the interface is found and is the last of its GUID, and whatever was found still is.
pub fn after_install()
    ensures found { InstalledIsFound }
    ensures last { InstalledIsLast }
    ensures stays { OthersAreFound }
    ensures first { FirstStays }
{}

/// What `uninstall` leaves: as it was before the interface was installed.
pub fn after_uninstall()
    ensures back { RemovedGivesBack }
    ensures none { RemovedIsGone }
    ensures stays { OthersStay }
{}

/// What `forget` leaves: nothing of that image, and all of each other.
pub fn after_forget()
    ensures none { ForgottenHasNone }
    ensures stays { OthersKeepTheirs }
{}

/// What the three finders have to do with one another.
pub fn finders_agree()
    ensures first { FirstIsAtZero }
    ensures each { LocatedIsFound }
{}

/// New handles are new, and none is handed out again.
pub fn new_handles()
    ensures fresh { NewIsFresh }
    ensures rises { NextNeverFalls }
{}

/// The limits that clauses and definitions have as numbers are those of the code.
pub fn limits()
    ensures first_handle { FIRST_HANDLE ≡ 256 }
    ensures of_owner { MOST_OF_OWNER ≡ 16 }
{}
