//! Which images may touch a unit.
ghost use Rattle.std.specs.Prelude.{◌≡◌, ◌<◌, length};
ghost use Rattle.image_groups.specs.Reach.{is_touched, reach};
ghost use Rattle.mm_base.specs.declared.access.Right.TheVariants.{Write};

use mm_base::{Kind, Right};
use mm_core::Core;

/// Whether an image may read, write or execute a unit, where it is known whether it may write it. It decides two accesses at most.
pub fn is_touched(core: &Core, image: u32, kind: Kind, unit: u64, written: bool) -> bool
    requires there { image < length core.now.site.supervised.images }
    requires written { written ≡ reach core.now.site.supervised image kind unit Write }
    ensures { result ≡ is_touched core.now.site.supervised image kind unit }
{
    written
        || core.reaches(image, kind, unit, Right::Read)
        || core.reaches(image, kind, unit, Right::Execute)
}
