//! Laws of runs, over the definitions that `RunMap`'s contracts cite. These functions do nothing: their contracts are the laws.
ghost use Rattle.page_runs.specs.RunLaws.{ChangesTheseAlone, OneIsLowest, TakenMayBeGiven, ComesBack, GivenIsFree, ShareNoPage};

/// What a change to a run makes of each page: the pages of the run get the flag, and each other page stays as it was.
pub fn page_by_page()
    ensures { ChangesTheseAlone }
{}

/// At most one run of n pages is the lowest.
pub fn one_lowest()
    ensures { OneIsLowest }
{}

/// What was taken may be given, after which all is as before; and what was given can be had again.
pub fn given_back()
    ensures may_give { TakenMayBeGiven }
    ensures before { ComesBack }
    ensures again { GivenIsFree }
{}

/// Two runs, one taken after the other, share no page.
pub fn apart()
    ensures { ShareNoPage }
{}
