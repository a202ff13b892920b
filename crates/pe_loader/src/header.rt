//! The headers of an image.
ghost use Rattle.std.specs.Prelude.{◌≡◌, ◌+◌, ◌*◌, ◌≤◌, ◌<◌, ◌&&◌, ◌||◌, ◌==◌, [], ◌∷◌, nat_le, nat_lt, length, take, drop, codes, None, OnOk, IfErr};
ghost use Rattle.std.specs.Str.{bytes_eq};
ghost use Rattle.mm_base.specs.Checks.{first_failing};
ghost use Rattle.mm_base.specs.Numbers.{number_in};
ghost use Rattle.pe_loader.specs.Headers.{pe_at as pe_place, optional_at as optional_place, machine_of as machine_told, part_count as part_count_told, optional_size as optional_size_told, magic_of as magic_told, image_size as image_size_told, headers_size as headers_size_told, subsystem_of as subsystem_told, directory_count as directory_count_told, table_at as table_place, section_at as section_place, table_end as table_end_place, relocs_of as relocs_told, optional_fits as has_optional_fit, headers_fit as has_headers_fit, header_checks, FailsFirst};
ghost use Rattle.pe_loader.specs.LayoutInside.{HasHeaders};

use crate::fields::{
    MACHINE, NUMBER_OF_RVA_AND_SIZES, NUMBER_OF_SECTIONS, OPTIONAL_HEADER, RELOCATIONS_ADDRESS,
    RELOCATIONS_SIZE, SIZE_OF_HEADERS, SIZE_OF_IMAGE, SIZE_OF_OPTIONAL_HEADER, SUBSYSTEM,
};
use crate::numbers::{u16_at, u32_at};
use crate::pe_fault::fault;
use mm_base::{PeFault, PeKind, Range, check, stands_at};

/// How many bytes a DOS header has.
const DOS_BYTES: usize = 64;

/// Where a DOS header has the place of the PE header.
const LFANEW: usize = 0x3c;

/// How many bytes the signature, the file header and an optional header without directories have.
const LEAST_BYTES: usize = 136;

/// How many bytes an optional header has in front of its directories.
const OPTIONAL_HEADER_BYTES: usize = 112;

/// How many bytes a directory has.
const DIRECTORY_BYTES: usize = 8;

/// How many bytes a section header has.
pub(crate) const SECTION_HEADER_BYTES: usize = 40;

const MZ: [u8; 2] = *b"MZ";

const SIGNATURE: [u8; 4] = *b"PE\0\0";

/// The machines of EBC, of x64 and of AArch64.
pub(crate) const EBC: u16 = 0x0ebc;

const X64: u16 = 0x8664;

const AARCH64: u16 = 0xaa64;

/// The optional header's number in PE32+.
const PE32_PLUS: u16 = 0x20b;

/// The subsystems of drivers: of boot services and of the runtime.
const BOOT_DRIVER: u16 = 11;

const RUNTIME_DRIVER: u16 = 12;

/// The most bytes that an image may have.
const MOST_BYTES: u32 = 16_777_216;

/// The directory of relocations.
const RELOCATIONS: u32 = 5;

/// Where the PE signature stands.
fn pe_at(bytes: &[u8]) -> usize
    requires { 64 ≤ length bytes.now }
    ensures place { result ≡ pe_place bytes.now }
    ensures few { result < 4294967296 }
{
    u32_at(bytes, LFANEW) as usize
}

/// Where the optional header stands.
pub(crate) fn optional_at(bytes: &[u8]) -> usize
    requires { 64 ≤ length bytes.now }
    ensures place { result ≡ optional_place bytes.now }
    ensures few { result < 4294967320 }
{
    pe_at(bytes) + OPTIONAL_HEADER
}

/// The machine that the image is for.
pub(crate) fn machine(bytes: &[u8]) -> u16
    requires { optional_place bytes.now + 112 ≤ length bytes.now }
    ensures { result ≡ machine_told bytes.now }
{
    u16_at(bytes, pe_at(bytes) + MACHINE)
}

/// How many sections there are.
pub(crate) fn part_count(bytes: &[u8]) -> u16
    requires { optional_place bytes.now + 112 ≤ length bytes.now }
    ensures { result ≡ part_count_told bytes.now }
{
    u16_at(bytes, pe_at(bytes) + NUMBER_OF_SECTIONS)
}

/// How many bytes the optional header has.
fn optional_size(bytes: &[u8]) -> u16
    requires { optional_place bytes.now + 112 ≤ length bytes.now }
    ensures { result ≡ optional_size_told bytes.now }
{
    u16_at(bytes, pe_at(bytes) + SIZE_OF_OPTIONAL_HEADER)
}

/// The 32-bit field of the optional header that stands so many bytes behind its begin.
pub(crate) fn field(bytes: &[u8], behind: usize) -> u32
    requires fixed { 64 ≤ length bytes.now }
    requires within { optional_place bytes.now + (behind + 4) ≤ length bytes.now }
    ensures { result ≡ number_in bytes.now (optional_place bytes.now + behind) 4 }
{
    u32_at(bytes, optional_at(bytes) + behind)
}

/// How many bytes the image has.
pub(crate) fn image_size(bytes: &[u8]) -> u32
    requires { optional_place bytes.now + 112 ≤ length bytes.now }
    ensures { result ≡ image_size_told bytes.now }
{
    field(bytes, SIZE_OF_IMAGE)
}

/// How many bytes the headers have.
pub(crate) fn headers_size(bytes: &[u8]) -> u32
    requires { optional_place bytes.now + 112 ≤ length bytes.now }
    ensures { result ≡ headers_size_told bytes.now }
{
    field(bytes, SIZE_OF_HEADERS)
}

/// How many directories the optional header has.
fn directory_count(bytes: &[u8]) -> u32
    requires { optional_place bytes.now + 112 ≤ length bytes.now }
    ensures { result ≡ directory_count_told bytes.now }
{
    field(bytes, NUMBER_OF_RVA_AND_SIZES)
}

/// Where the section table stands.
pub(crate) fn table_at(bytes: &[u8]) -> usize
    requires { optional_place bytes.now + 112 ≤ length bytes.now }
    ensures place { result ≡ table_place bytes.now }
    ensures few { result < 4294967320 + 65536 }
{
    optional_at(bytes) + optional_size(bytes) as usize
}

/// Where an entry of the section table stands.
fn section_at(bytes: &[u8], k: u16) -> usize
    requires { optional_place bytes.now + 112 ≤ length bytes.now }
    ensures { result ≡ section_place bytes.now k }
{
    table_at(bytes) + SECTION_HEADER_BYTES * k as usize
}

/// The relocation directory.
#[tactic(auto, unfolding(crate::specs::Headers::relocs_of))]
pub(crate) fn relocs(bytes: &[u8]) -> Range
    requires { HasHeaders bytes.now }
    ensures directory { result ≡ relocs_told bytes.now }
    ensures base { result.base < 4294967296 }
    ensures length { result.length < 4294967296 }
{
    if directory_count(bytes) <= RELOCATIONS || field(bytes, RELOCATIONS_SIZE) == 0 {
        return Range { base: 0, length: 0 };
    }
    Range {
        base: field(bytes, RELOCATIONS_ADDRESS) as u64,
        length: field(bytes, RELOCATIONS_SIZE) as u64,
    }
}

/// Whether the machine is one that images are for.
fn has_known_machine(bytes: &[u8]) -> bool
    requires { optional_place bytes.now + 112 ≤ length bytes.now }
    ensures { result
        ≡ ((machine_told bytes.now == 0x0ebc) || (machine_told bytes.now == 0x8664) || (machine_told bytes.now == 0xaa64)) }
{
    let machine = machine(bytes);
    machine == EBC || machine == X64 || machine == AARCH64
}

/// Whether the optional header has room for its directories, and the section table lies in the file.
fn optional_fits(bytes: &[u8]) -> bool
    requires { optional_place bytes.now + 112 ≤ length bytes.now }
    ensures { result ≡ has_optional_fit bytes.now }
{
    let directories = DIRECTORY_BYTES * directory_count(bytes) as usize;
    OPTIONAL_HEADER_BYTES + directories <= optional_size(bytes) as usize
        && section_at(bytes, part_count(bytes)) <= bytes.len()
}

/// Whether the subsystem is that of a driver.
fn is_driver(bytes: &[u8]) -> bool
    requires { optional_place bytes.now + 112 ≤ length bytes.now }
    ensures { result ≡ ((subsystem_told bytes.now == 11) || (subsystem_told bytes.now == 12)) }
{
    let subsystem = u16_at(bytes, optional_at(bytes) + SUBSYSTEM);
    subsystem == BOOT_DRIVER || subsystem == RUNTIME_DRIVER
}

/// Whether the image's size is one that an image may have.
fn size_fits(bytes: &[u8]) -> bool
    requires { optional_place bytes.now + 112 ≤ length bytes.now }
    ensures { result ≡ (nat_lt 0 (image_size_told bytes.now) && nat_le (image_size_told bytes.now) 16777216) }
{
    let size = image_size(bytes);
    0 < size && size <= MOST_BYTES
}

/// Whether the headers span the section table, and lie in the file and in the image.
fn headers_fit(bytes: &[u8]) -> bool
    requires { optional_place bytes.now + 112 ≤ length bytes.now }
    ensures { result ≡ has_headers_fit bytes.now }
{
    let headers = headers_size(bytes);
    section_at(bytes, part_count(bytes)) <= headers as usize
        && headers as usize <= bytes.len()
        && headers <= image_size(bytes)
}

/// Whether the headers up to the directories lie in the file.
fn has_room(bytes: &[u8]) -> bool
    requires { 64 ≤ length bytes.now }
    ensures { result ≡ nat_le (pe_place bytes.now + 136) (length bytes.now) }
{
    pe_at(bytes) + LEAST_BYTES <= bytes.len()
}

/// Whether the DOS header begins with its signature.
fn is_mz(bytes: &[u8]) -> bool
    requires { 64 ≤ length bytes.now }
    ensures { result ≡ bytes_eq (take 2 bytes.now) (codes "MZ") }
{
    stands_at(bytes, 0, &MZ)
}

/// Whether the PE signature stands in its place.
fn has_signature(bytes: &[u8]) -> bool
    requires { optional_place bytes.now + 112 ≤ length bytes.now }
    ensures { result ≡ bytes_eq (take 4 (drop (pe_place bytes.now) bytes.now)) (0x50 ∷ 0x45 ∷ 0 ∷ 0 ∷ []) }
{
    stands_at(bytes, pe_at(bytes), &SIGNATURE)
}

/// Whether the optional header is one of PE32+.
fn is_pe32_plus(bytes: &[u8]) -> bool
    requires { optional_place bytes.now + 112 ≤ length bytes.now }
    ensures { result ≡ (magic_told bytes.now == 0x20b) }
{
    u16_at(bytes, optional_at(bytes)) == PE32_PLUS
}

/// Checks the headers, in order; the first check that fails is the fault.
pub(crate) fn check_header(bytes: &[u8]) -> Result<(), PeFault>
    requires { length bytes.now ≤ 16777216 }
    ensures ok { OnOk result (first_failing (header_checks bytes.now) ≡ None) }
    ensures fault { IfErr result (FailsFirst (header_checks bytes.now)) }
{
    check(DOS_BYTES <= bytes.len(), fault(0, PeKind::Short))?;
    check(is_mz(bytes), fault(0, PeKind::Mz))?;
    check(has_room(bytes), fault(LFANEW as u32, PeKind::Lfanew))?;
    let pe = pe_at(bytes) as u32;
    check(has_signature(bytes), fault(pe, PeKind::Signature))?;
    check(
        has_known_machine(bytes),
        fault(pe + MACHINE as u32, PeKind::Machine),
    )?;
    check(
        is_pe32_plus(bytes),
        fault(pe + OPTIONAL_HEADER as u32, PeKind::Magic),
    )?;
    check(
        optional_fits(bytes),
        fault(pe + SIZE_OF_OPTIONAL_HEADER as u32, PeKind::Optional),
    )?;
    check(
        is_driver(bytes),
        fault(pe + (OPTIONAL_HEADER + SUBSYSTEM) as u32, PeKind::Subsystem),
    )?;
    check(
        size_fits(bytes),
        fault(pe + (OPTIONAL_HEADER + SIZE_OF_IMAGE) as u32, PeKind::Size),
    )?;
    check(
        headers_fit(bytes),
        fault(
            pe + (OPTIONAL_HEADER + SIZE_OF_HEADERS) as u32,
            PeKind::Headers,
        ),
    )
}
