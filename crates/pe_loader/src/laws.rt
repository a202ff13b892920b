//! Laws of images. These functions do nothing: their contracts are the laws.
ghost use Rattle.pe_loader.specs.ImageLaws.{ImageOrFault, NeverBoth, OneImage, OneFault, SectionsLieWithin, SectionsLieApart, SizeIsBounded};
ghost use Rattle.pe_loader.specs.ImageLaws.{EntryIsCode, EntryIsWithin, OverlapIsAByte, CopiesAreTheFile, LoadedIsThere, OneLoadedForm, LoadedHasItsSize, PlainAtHome};

/// Bytes are one image with one list of fixups, or have one fault, and never both.
pub fn image_or_fault()
    ensures either { ImageOrFault }
    ensures never_both { NeverBoth }
    ensures one_image { OneImage }
    ensures one_fault { OneFault }
{}

/// The sections of an image lie in it, and share no byte.
pub fn sections_apart()
    ensures within { SectionsLieWithin }
    ensures apart { SectionsLieApart }
{}

/// An image has its headers, and at most 16,777,216 bytes.
pub fn size_is_bounded()
    ensures { SizeIsBounded }
{}

/// The entry of byte code is even, and lies in a section that may be executed; that of native code lies in the image.
pub fn entry_is_within()
    ensures code { EntryIsCode }
    ensures native { EntryIsWithin }
{}

/// A section overlaps earlier ones exactly where some byte lies in it and in one of them.
pub fn overlap_is_a_byte()
    ensures { OverlapIsAByte }
{}

/// What a section copies is that of the file.
pub fn copies_are_the_file()
    ensures { CopiesAreTheFile }
{}

/// An image is loaded at an address in one form, of its size.
pub fn one_loaded_form()
    ensures some { LoadedIsThere }
    ensures one { OneLoadedForm }
    ensures size { LoadedHasItsSize }
{}

/// Loaded at the address that it was linked for, an image is its plain form.
pub fn plain_at_home()
    ensures { PlainAtHome }
{}
