//! The header of a volume.
ghost use Rattle.std.specs.Prelude.{◌≡◌, ◌+◌, ◌%◌, ◌≤◌, ◌&&◌, ◌||◌, ◌==◌, if◌then◌else◌, length, true, false, nat_le, take, drop, codes, None, OnOk, IfErr};
ghost use Rattle.std.specs.Str.{bytes_eq};
ghost use Rattle.volume_reader.specs.VolumeHeader.{header_length as header_length_of, volume_length as volume_length_of, ext_header, ext_size, ext_header_fits as has_room_for_ext, file_system, ffs2_guid, ffs3_guid, is_ffs3 as is_ffs3_volume, first_failing, first_place as first_place_of, erase_polarity as polarity_told};
ghost use Rattle.volume_reader.specs.Sums.{sum_in_16_bits as words_summed};
ghost use Rattle.volume_reader.specs.VolumeGrammar.{HasBadHeader};

use crate::bytes::{byte_at, sum_of_words, up_to_8};
use crate::volume_fault::{VolumeFault, fault};
use mm_base::{VolumeKind, check, number_at, stands_at};

/// How many bytes an EFI_FIRMWARE_VOLUME_HEADER has in front of what may stand in its block map.
const FIXED_BYTES: usize = 64;

/// How many bytes an EFI_FIRMWARE_VOLUME_EXT_HEADER has at least: its name and its size.
const EXT_BYTES: usize = 20;

/// EFI_FVH_SIGNATURE.
const SIGNATURE: [u8; 4] = *b"_FVH";

/// EFI_FVH_REVISION.
const REVISION: u8 = 2;

/// EFI_FVB2_ERASE_POLARITY: bits are erased to ones.
const ERASE_POLARITY: u64 = 0x800;

/// EFI_FIRMWARE_FILE_SYSTEM2_GUID, as it is stored.
const FFS2: [u8; 16] = [
    0x78, 0xe5, 0x8c, 0x8c, 0x3d, 0x8a, 0x1c, 0x4f, 0x99, 0x35, 0x89, 0x61, 0x85, 0xc3, 0x2d, 0xd3,
];

/// EFI_FIRMWARE_FILE_SYSTEM3_GUID, as it is stored.
const FFS3: [u8; 16] = [
    0x7a, 0xc0, 0x73, 0x54, 0xcb, 0x3d, 0xca, 0x4d, 0xbd, 0x6f, 0x1e, 0x96, 0x89, 0xe7, 0x34, 0x9a,
];

/// The length of the header that a volume names.
fn header_length(bytes: &[u8]) -> usize
    requires { 64 ≤ length bytes.now }
    ensures { result ≡ header_length_of bytes.now }
{
    number_at(bytes, 48, 2) as usize
}

/// The length that a volume names.
pub(crate) fn volume_length(bytes: &[u8]) -> usize
    requires { 64 ≤ length bytes.now }
    ensures { result ≡ volume_length_of bytes.now }
{
    number_at(bytes, 32, 8) as usize
}

/// Whether the file system is FFS3.
pub(crate) fn is_ffs3(bytes: &[u8]) -> bool
    requires { 64 ≤ length bytes.now }
    ensures { result ≡ is_ffs3_volume bytes.now }
{
    stands_at(bytes, 16, &FFS3)
}

/// Whether bits that were erased read as ones.
pub(crate) fn erase_polarity(bytes: &[u8]) -> bool
    requires { 64 ≤ length bytes.now }
    ensures { result ≡ polarity_told bytes.now }
{
    number_at(bytes, 44, 4) & ERASE_POLARITY != 0
}

/// Whether a volume header's signature stands in its place.
fn has_signature(bytes: &[u8]) -> bool
    requires { 64 ≤ length bytes.now }
    ensures { result ≡ bytes_eq (take 4 (drop 40 bytes.now)) (codes "_FVH") }
{
    stands_at(bytes, 40, &SIGNATURE)
}

/// Whether the file system is FFS2 or FFS3.
fn has_known_system(bytes: &[u8]) -> bool
    requires { 64 ≤ length bytes.now }
    ensures { result ≡ (bytes_eq (file_system bytes.now) ffs2_guid || is_ffs3_volume bytes.now) }
{
    stands_at(bytes, 16, &FFS2) || is_ffs3(bytes)
}

/// Whether the header's length is even, and from 64 to what there is.
fn header_length_fits(bytes: &[u8]) -> bool
    requires { 64 ≤ length bytes.now }
    ensures { result
        ≡ (nat_le 64 (header_length_of bytes.now) && (header_length_of bytes.now % 2 == 0) && nat_le (header_length_of bytes.now) (length bytes.now)) }
{
    let length = header_length(bytes);
    FIXED_BYTES <= length && length % 2 == 0 && length <= bytes.len()
}

/// Whether the header sums up to 0 in 16 bits; linear in the header.
fn header_sums_up(bytes: &[u8]) -> bool
    requires fixed { 64 ≤ length bytes.now }
    requires even { header_length_of bytes.now % 2 ≡ 0 }
    requires within { header_length_of bytes.now ≤ length bytes.now }
    ensures { result ≡ (words_summed (take (header_length_of bytes.now) bytes.now) == 0) }
{
    let (header, _) = bytes.split_at(header_length(bytes));
    sum_of_words(header) == 0
}

/// Whether the volume's length holds the header, and leads past no end.
fn volume_length_fits(bytes: &[u8]) -> bool
    requires { 64 ≤ length bytes.now }
    ensures { result
        ≡ (nat_le (header_length_of bytes.now) (volume_length_of bytes.now) && nat_le (volume_length_of bytes.now) (length bytes.now)) }
{
    let length = volume_length(bytes);
    header_length(bytes) <= length && length <= bytes.len()
}

/// Whether there is no extended header, or it lies in the volume.
fn ext_header_fits(bytes: &[u8]) -> bool
    requires fixed { 64 ≤ length bytes.now }
    requires within { volume_length_of bytes.now ≤ length bytes.now }
    requires few { length bytes.now ≤ 16777216 }
    ensures { result ≡ has_room_for_ext bytes.now }
{
    let at = number_at(bytes, 52, 2) as usize;
    if at == 0 {
        return true;
    }
    let length = volume_length(bytes);
    if length < at || length - at < EXT_BYTES {
        return false;
    }
    let size = number_at(bytes, at + 16, 4) as usize;
    EXT_BYTES <= size && size <= length - at
}

/// The place behind the header, or behind the extended one where there is one.
fn behind_header(bytes: &[u8]) -> usize
    requires { first_failing bytes.now ≡ None }
    ensures value { result
        ≡ (if ext_header bytes.now == 0 then header_length_of bytes.now else ext_header bytes.now + ext_size bytes.now) }
    ensures within { result ≤ volume_length_of bytes.now }
{
    let at = number_at(bytes, 52, 2) as usize;
    if at == 0 {
        return header_length(bytes);
    }
    at + number_at(bytes, at + 16, 4) as usize
}

/// The place of the first file.
pub(crate) fn first_place(bytes: &[u8]) -> usize
    requires header { first_failing bytes.now ≡ None }
    requires few { length bytes.now ≤ 16777216 }
    ensures { result ≡ first_place_of bytes.now }
{
    up_to_8(behind_header(bytes))
}

/// Checks a volume header, in order; the first check that fails is the fault.
pub(crate) fn check_header(bytes: &[u8]) -> Result<(), VolumeFault>
    requires { length bytes.now ≤ 16777216 }
    ensures ok { OnOk result (first_failing bytes.now ≡ None) }
    ensures fault { IfErr result (HasBadHeader bytes.now) }
{
    check(FIXED_BYTES <= bytes.len(), fault(0, VolumeKind::Short))?;
    check(has_signature(bytes), fault(40, VolumeKind::Signature))?;
    check(
        header_length_fits(bytes),
        fault(48, VolumeKind::HeaderLength),
    )?;
    check(header_sums_up(bytes), fault(50, VolumeKind::HeaderSum))?;
    check(
        byte_at(bytes, 55) == REVISION,
        fault(55, VolumeKind::Revision),
    )?;
    check(has_known_system(bytes), fault(16, VolumeKind::FileSystem))?;
    check(volume_length_fits(bytes), fault(32, VolumeKind::Length))?;
    check(ext_header_fits(bytes), fault(52, VolumeKind::ExtHeader))
}
