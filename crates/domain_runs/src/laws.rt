//! Laws of invocations over a domain. These functions do nothing: their contracts are the laws.
ghost use Rattle.domain_runs.specs.Laws.{RecordsStayFew, TablesStayAfterLock};

/// Each call of a domain keeps the records few: at most 8 denials, and at most 16 writes to cells.
pub fn records_stay_few()
    ensures { RecordsStayFew }
{}

/// After lock no call of a domain changes anything of the tables but what a step may change.
pub fn tables_stay_after_lock()
    ensures { TablesStayAfterLock }
{}
