//! The sections of an image by rising address.
ghost use Rattle.std.specs.Prelude.{◌≡◌};
ghost use Rattle.image_table.specs.Sections.{AreApart, sections_of};

use mm_base::{List, Part};

/// The parts that have bytes, by rising address. It takes no memory, and costs n log n steps for n parts, in whatever order
/// they come.
pub fn by_address(parts: List<Part>) -> List<Part>
    requires { AreApart parts }
    ensures { result ≡ sections_of parts }
{
    let mut sections = parts.into_vec();
    sections.retain(|part| part.length > 0);
    sections.sort_unstable_by_key(|part| part.at);
    List::from_vec(sections)
}
