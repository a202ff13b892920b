//! Laws of rounds, for every starter. These functions do nothing: their contracts are the laws.
ghost use Rattle.depex.specs.Meaning.{named_before, named_after};
ghost use Rattle.dispatcher.specs.Laws.{AreTogether, NoneTwice, WaitRightly};

use crate::Starter;

/// A driver whose BEFORE or AFTER names one of a round is in that round, whatever becomes of the starts: where a start fails, its
/// AFTER drivers start all the same.
pub fn scheduled_together<S: Starter>()
    ensures by_before { AreTogether named_before S.installed_in S.started }
    ensures by_after { AreTogether named_after S.installed_in S.started }
{}

/// A driver that is never scheduled has no condition that holds at the end, and names no driver that was scheduled.
pub fn waiting_drivers<S: Starter>()
    ensures { WaitRightly S.installed_in S.started }
{}

/// No driver is scheduled twice, in one round or in two: the names of those that are scheduled differ.
pub fn none_twice<S: Starter>()
    ensures { NoneTwice S.installed_in S.started }
{}
