//! Laws of the definitions that contracts cite. These functions do nothing: their contracts are the laws.
ghost use Rattle.mm_base.specs.NumberLaws.{WordsComeBack, BytesComeBack};
ghost use Rattle.mm_base.specs.GuidLaws.{GuidComesBack};
ghost use Rattle.std.specs.Prelude.{◌≡◌};
ghost use Rattle.mm_base.specs.Platform.{mmram, page_size, lane_window, device_window, port_count, msr_count, first_upper_msr, saved_count, trapped_access};
ghost use Rattle.mm_base.specs.Range.{OverlapIsAUnit, CoversEachUnit, CoveredIsWithin};
ghost use Rattle.mm_base.specs.Statuses.{success, invalid_parameter, unsupported, out_of_resources, not_found, access_denied, timeout, aborted, interrupt_pending, source_pending, source_quiesced};

use crate::status::{
    ABORTED, ACCESS_DENIED, INTERRUPT_PENDING, INVALID_PARAMETER, NOT_FOUND, OUT_OF_RESOURCES,
    SUCCESS, TIMEOUT, UNSUPPORTED, WARN_INTERRUPT_SOURCE_PENDING, WARN_INTERRUPT_SOURCE_QUIESCED,
};
use crate::{
    COMMUNICATE_PAGES, DEVICE_WINDOW, EXTRA_PAGES, GUID_BYTES, HEADER_BYTES, LANE_WINDOW, MMRAM,
    MOST_BYTES, MOST_DENIALS, MOST_FETCHED, MOST_WRITES, MSRS, PAGE_BYTES, POOL_PAGES, PORTS,
    RESERVE_PAGES, SAVED_REGISTERS, SERVICE_PAGES, SERVICES, STACK_PAGES, TRAPPED_ACCESS,
    UPPER_MSRS, WORD_BYTES,
};

/// Words and the bytes of them hold the same.
pub fn words_round_trip()
    ensures words { WordsComeBack }
    ensures bytes { BytesComeBack }
{}

/// A GUID is read back from its text.
pub fn guid_text_round_trip()
    ensures { GuidComesBack }
{}

/// Ranges overlap exactly where some unit lies in both, and one covers another exactly where each unit of that lies in it.
pub fn ranges_by_units()
    ensures overlap { OverlapIsAUnit }
    ensures cover { CoversEachUnit }
    ensures within { CoveredIsWithin }
{}

/// The status codes are the numbers that the definitions say.
pub fn statuses()
    ensures success { SUCCESS ≡ success }
    ensures invalid_parameter { INVALID_PARAMETER ≡ invalid_parameter }
    ensures unsupported { UNSUPPORTED ≡ unsupported }
    ensures out_of_resources { OUT_OF_RESOURCES ≡ out_of_resources }
    ensures not_found { NOT_FOUND ≡ not_found }
    ensures access_denied { ACCESS_DENIED ≡ access_denied }
    ensures timeout { TIMEOUT ≡ timeout }
    ensures aborted { ABORTED ≡ aborted }
    ensures interrupt_pending { INTERRUPT_PENDING ≡ interrupt_pending }
    ensures source_pending { WARN_INTERRUPT_SOURCE_PENDING ≡ source_pending }
    ensures source_quiesced { WARN_INTERRUPT_SOURCE_QUIESCED ≡ source_quiesced }
{}

/// The platform's map is the one that the definitions say.
pub fn platform_map()
    ensures mmram { MMRAM ≡ mmram }
    ensures page { PAGE_BYTES ≡ page_size }
    ensures lane_window { LANE_WINDOW ≡ lane_window }
    ensures device_window { DEVICE_WINDOW ≡ device_window }
    ensures ports { PORTS ≡ port_count }
    ensures msrs { MSRS ≡ msr_count }
    ensures upper_msrs { UPPER_MSRS ≡ first_upper_msr }
    ensures saved { SAVED_REGISTERS ≡ saved_count }
    ensures trapped { TRAPPED_ACCESS ≡ trapped_access }
{}

/// The limits and sizes that clauses and definitions have as numbers are those of the code.
pub fn limits()
    ensures denials { MOST_DENIALS ≡ 8 }
    ensures writes { MOST_WRITES ≡ 16 }
    ensures request { MOST_BYTES ≡ 4096 }
    ensures header { HEADER_BYTES ≡ 24 }
    ensures guid { GUID_BYTES ≡ 16 }
    ensures word { WORD_BYTES ≡ 8 }
    ensures services { SERVICES ≡ 20 }
    ensures fetched { MOST_FETCHED ≡ 18 }
    ensures stack { STACK_PAGES ≡ 4 }
    ensures communicate { COMMUNICATE_PAGES ≡ 1 }
    ensures service_page { SERVICE_PAGES ≡ 1 }
    ensures pool { POOL_PAGES ≡ 16 }
    ensures reserve { RESERVE_PAGES ≡ 16 }
    ensures extra { EXTRA_PAGES ≡ 38 }
{}
