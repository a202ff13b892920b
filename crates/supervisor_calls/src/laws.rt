//! Laws of accesses and services. These functions do nothing: their contracts are the laws.
ghost use Rattle.supervisor_calls.specs.Laws.{PassesAtEachUnit, OwnPagesPass, ServicesGoAlong, ServicesLeaveAlone, ListsStayAfterLock};
ghost use Rattle.supervisor_calls.specs.Within.{CallsStayWithin};

/// What passes, passes at each of its units.
pub fn passes_unit_by_unit()
    ensures { PassesAtEachUnit }
{}

/// Reads and writes of an image's own stack, communicate page, pool and reserve pass.
pub fn own_pages_pass()
    ensures { OwnPagesPass }
{}

/// A map of domains that goes along with each thing that a service may do goes along with each whole service.
pub fn services_go_along()
    ensures { ServicesGoAlong }
{}

/// What each thing that a service may do leaves alone, each whole service leaves alone.
pub fn services_leave_alone()
    ensures { ServicesLeaveAlone }
{}

/// After lock no service changes the handlers or the interfaces.
pub fn lists_stay_after_lock()
    ensures { ListsStayAfterLock }
{}

/// Each call of a domain leaves alone all that isn't its image's own.
pub fn calls_stay_within()
    ensures { CallsStayWithin }
{}
