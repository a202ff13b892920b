//! Two cores that step side by side.
ghost use Rattle.std.specs.Prelude.{◌≡◌, length};
ghost use Rattle.image_groups.specs.Groups.{group_of};
ghost use Rattle.mm_base.specs.Prepared.{Suffices};
ghost use Rattle.mm_core.specs.EntryStep.{core_step};
ghost use Rattle.mm_groups.specs.Closed.{IsClosedIn};
ghost use Rattle.mm_groups.specs.EntryLaws.{AreAlike, IsSound};
ghost use Rattle.mm_groups.specs.Share.{erased_core, share_of};

use mm_base::{Machine, Prepared};
use mm_core::Core;

/// Steps two cores, each with an entry of its own. Where the group of the images with these numbers is closed, the cores agree once all else is
/// erased, and the requests agree in what the group may learn of them, the group gets the same share of both entries, and the cores agree
/// again. It takes no memory, and costs what both steps do.
pub fn step_erased(
    left: &mut Core,
    right: &mut Core,
    group: &[u32],
    a: &mut Prepared,
    b: &mut Prepared,
)
    requires left_room { Suffices (length left.old.site.handlers) a.old }
    requires right_room { Suffices (length right.old.site.handlers) b.old }
    ensures left { left.new ≡ (core_step left.old a.old.entry.request).1 }
    ensures right { right.new ≡ (core_step right.old b.old.entry.request).1 }
    ensures left_request { a.new.entry.request ≡ a.old.entry.request }
    ensures right_request { b.new.entry.request ≡ b.old.entry.request }
    ensures left_outcome { a.new.entry.outcome ≡ (core_step left.old a.old.entry.request).0 }
    ensures right_outcome { b.new.entry.outcome ≡ (core_step right.old b.old.entry.request).0 }
    ensures share { IsSound left.old → IsSound right.old → IsClosedIn (group_of group.now) left.old.site
        → AreAlike (group_of group.now) left.old right.old a.old.entry.request b.old.entry.request
        → share_of (group_of group.now) left.old.site a.new.entry.outcome ≡ share_of (group_of group.now) left.old.site b.new.entry.outcome }
    ensures erased { IsSound left.old → IsSound right.old → IsClosedIn (group_of group.now) left.old.site
        → AreAlike (group_of group.now) left.old right.old a.old.entry.request b.old.entry.request
        → erased_core (group_of group.now) left.new ≡ erased_core (group_of group.now) right.new }
{
    let _ = group;
    left.step(a);
    right.step(b);
}
