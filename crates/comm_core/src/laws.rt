//! Laws of the capture, for every machine, every list of events of any lanes, and every lane and lane size.
ghost use Rattle.std.specs.Prelude.{◌≡◌};
ghost use Rattle.comm_core.specs.HeadlineLaw.{EachHasHeadline};
ghost use Rattle.comm_core.specs.Laws.{EachWordOnce, OlderAreServed, EachBegins, RequestsStay, CourseRequestsStay, RunRests};

use crate::{LEAST_WORDS, MOST_WORDS};
use mm_base::Machine;

/// A request's words are loaded once each, and before its turn, whatever others store to the lane meanwhile.
pub fn each_word_once<M: Machine>()
    ensures served { EachWordOnce M.stepped }
    ensures older { OlderAreServed M.stepped }
    ensures begins { EachBegins M.stepped }
{}

/// Whatever happens after a turn, the requests that were captured so far stay as they are.
pub fn requests_stay<M: Machine>()
    ensures stay { RequestsStay }
    ensures events { CourseRequestsStay M.stepped }
{}

/// A run leads its lane to rest.
pub fn run_rests<M: Machine>()
    ensures { RunRests M.stepped }
{}

/// The headline, of every world that stands for any list of events: what its words, machine, entries and trace say.
pub fn headline<M: Machine>()
    ensures { EachHasHeadline M.stepped }
{}

/// The limits that clauses have as numbers are those of the code.
pub fn limits()
    ensures least_words { LEAST_WORDS ≡ 3 }
    ensures most_words { MOST_WORDS ≡ 512 }
{}
