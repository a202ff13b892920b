//! Laws of the grammar of volumes and sections.
ghost use Rattle.volume_reader.specs.VolumeLaws.{VolumeOrFault, NeverBoth, OneVolume, OneFault, SamePastEnd, SameWithMore, SameBeforeCut, LiesInBytes, FilesLieInVolume};
ghost use Rattle.volume_reader.specs.FileLaws.{FilesAreAligned, FilesLieApart, FilesAreWhole, HighestBitDecides, NoBitIsFree};
ghost use Rattle.volume_reader.specs.SectionLaws.{ListOrRefusal, NeverListAndRefusal, OneList, OneRefusal, NumbersList, NumbersRefusal, WalkGivesSections, WalkMeetsRefusal};

/// Bytes are one volume or have one fault, and never both.
pub fn volume_or_fault()
    ensures either { VolumeOrFault }
    ensures never_both { NeverBoth }
    ensures one_volume { OneVolume }
    ensures one_fault { OneFault }
{}

/// Bytes past a volume's end change nothing of it, whether they are cut off or added.
pub fn same_past_end()
    ensures cut { SamePastEnd }
    ensures added { SameWithMore }
    ensures before_cut { SameBeforeCut }
{}

/// The bodies of a volume's files lie in it, and it lies in its bytes.
pub fn files_lie_in_volume()
    ensures length { LiesInBytes }
    ensures files { FilesLieInVolume }
{}

/// The files of a volume stand at multiples of 8, one after another, and each is its header and its body.
pub fn where_files_stand()
    ensures aligned { FilesAreAligned }
    ensures apart { FilesLieApart }
    ensures whole { FilesAreWhole }
{}

/// The highest state bit that is set decides the state of a file.
pub fn highest_bit_decides()
    ensures some { HighestBitDecides }
    ensures none { NoBitIsFree }
{}

/// The sections of a body are one list, or one is refused behind some, and never both.
pub fn sections_or_fault()
    ensures either { ListOrRefusal }
    ensures never_both { NeverListAndRefusal }
    ensures one_list { OneList }
    ensures one_fault { OneRefusal }
{}

/// Sections by their numbers are those of the list.
pub fn sections_by_number()
    ensures list { NumbersList }
    ensures refusal { NumbersRefusal }
{}

/// A walk gives the sections of a file, one after another, up to the end or the fault.
pub fn walk_gives_sections()
    ensures sections { WalkGivesSections }
    ensures fault { WalkMeetsRefusal }
{}
