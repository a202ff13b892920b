//! Laws of the words of files. These functions do nothing: their contracts are the laws.
ghost use Rattle.file_words.specs.CatalogLaws.{CatalogIsThere, OneCatalog, PartsOrCause, NeverPartsAndCause, OneParts, OneExpressionIn, OneCause};
ghost use Rattle.file_words.specs.CatalogLaws.{DriversDiffer, StartedDiffer, OnePolicy, DriverHasParts};

/// The files of a volume have one list of words, and only one.
pub fn one_catalog()
    ensures some { CatalogIsThere }
    ensures one { OneCatalog }
{}

/// A driver file has its parts, which are one each, or is refused for one cause, and never both.
pub fn parts_or_cause()
    ensures either { PartsOrCause }
    ensures never_both { NeverPartsAndCause }
    ensures one_value { OneParts }
    ensures one_expression { OneExpressionIn }
    ensures one_fault { OneCause }
{}

/// Drivers have names that differ.
pub fn drivers_differ()
    ensures each { DriversDiffer }
    ensures started { StartedDiffer }
{}

/// At most one file is the policy.
pub fn one_policy()
    ensures { OnePolicy }
{}

/// A file with the word of a driver has its image section, its image and its expression.
pub fn driver_has_parts()
    ensures { DriverHasParts }
{}
