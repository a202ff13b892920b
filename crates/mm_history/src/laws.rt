//! Laws of histories that are the replay of their requests, for every machine. These functions do nothing: their
//! contracts are the laws.
ghost use Rattle.mm_history.specs.Laws.{RequestsDecide, FrontsAreReplayed, EachInItsPlace};

use mm_base::Machine;

/// The requests of such a history decide all of it, and what comes later leaves what came before as it is.
pub fn run_of_requests<M: Machine>()
    ensures decide { RequestsDecide M.stepped }
    ensures fronts { FrontsAreReplayed M.stepped }
    ensures each { EachInItsPlace M.stepped }
{}
