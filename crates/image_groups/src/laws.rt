//! Laws of what images may reach, of groups, and of what runs for a group. These functions do nothing: their contracts are the laws.
ghost use Rattle.image_groups.specs.Laws.{PassesWithinReach, ReachChangesAtEnds, ClosedGroupsHaveFacts};
ghost use Rattle.image_groups.specs.RunLaws.{ImagesStayAtWork, EachCallGoesAlong, InstructionsGoAlong, InvocationsGoAlong};
ghost use Rattle.image_groups.specs.RunLaws.{EachCallOutsideLeavesNothing, InstructionsOutsideLeaveNothing};
ghost use Rattle.image_groups.specs.RunLaws.{InvocationsOutsideLeaveNothing};

/// Where an access passes, each of its units is within the image's reach for that right.
pub fn passes_within_reach()
    ensures { PassesWithinReach }
{}

/// What an image may reach changes nowhere but where a window, a rule's range or a home range begins or ends.
pub fn reach_changes_at_ends()
    ensures { ReachChangesAtEnds }
{}

/// What is known of verdicts where a group is closed: images of the group are judged by what is granted to the group, and what they may touch is;
/// images outside write nothing that is.
pub fn closed_groups_have_facts()
    ensures { ClosedGroupsHaveFacts }
{}

/// A domain in which an image is at work stays one, at each of its calls.
pub fn images_stay_at_work()
    ensures { ImagesStayAtWork }
{}

/// What an image of a closed group fetches, reads, and is answered by each service depends on nothing that isn't granted to the group; nor does
/// what it writes.
pub fn each_call_goes_along()
    ensures { EachCallGoesAlong }
{}

/// What an instruction of an image of a closed group does depends on nothing that isn't granted to the group.
pub fn instructions_go_along()
    ensures { InstructionsGoAlong }
{}

/// How an invocation of an image of a closed group ends, with its records, and what it leaves to the group depends on nothing that isn't granted
/// to the group.
pub fn invocations_go_along()
    ensures { InvocationsGoAlong }
{}

/// No access and no service of an image outside a closed group changes anything that is granted to the group.
pub fn each_call_outside_leaves_nothing()
    ensures { EachCallOutsideLeavesNothing }
{}

/// No instruction of an image outside a closed group changes anything that is granted to the group.
pub fn instructions_outside_leave_nothing()
    ensures { InstructionsOutsideLeaveNothing }
{}

/// No invocation of an image outside a closed group, however it ends, changes anything that is granted to the group.
pub fn invocations_outside_leave_nothing()
    ensures { InvocationsOutsideLeaveNothing }
{}
