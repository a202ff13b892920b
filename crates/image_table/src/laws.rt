//! Laws of sections and home ranges, and the limit of a table. These functions do nothing: their contracts are the laws.
ghost use Rattle.std.specs.Prelude.{◌≡◌};
ghost use Rattle.image_table.specs.Laws.{SectionsAreParts, SectionsRise, LieInTheirRegion, Rise, LieApart, OfImagesApart, HoldWhatLiesWithin, HoldEachByte, HoldOwnPages};

use crate::MOST_IMAGES;

/// The sections by rising address are the parts that have bytes, and rise.
pub fn sections_by_address()
    ensures items { SectionsAreParts }
    ensures rise { SectionsRise }
{}

/// Home ranges of a placed image lie in its region, rise, and lie apart from one another.
pub fn home_ranges_of_an_image()
    ensures within { LieInTheirRegion }
    ensures rise { Rise }
    ensures apart { LieApart }
{}

/// Two placed images whose regions lie apart have home ranges apart.
pub fn home_ranges_of_images_apart()
    ensures { OfImagesApart }
{}

/// What lies in a range that is home is home, each of its bytes too.
pub fn home_byte_by_byte()
    ensures part { HoldWhatLiesWithin }
    ensures each { HoldEachByte }
{}

/// The pages of an image past its own bytes are home for read, and all but the service page for write.
pub fn own_pages()
    ensures { HoldOwnPages }
{}

/// The limit that clauses and definitions have as a number is that of the code.
pub fn limits()
    ensures images { MOST_IMAGES ≡ 32 }
{}
