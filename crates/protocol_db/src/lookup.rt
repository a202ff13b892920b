//! What is looked up by a pass over all rows, in order of installation.
ghost use Rattle.std.specs.Prelude.{◌≡◌, length, slice_get, option_map};
ghost use Rattle.protocol_db.specs.Rows.{first_of, has_handle, owned_by, rows_of};

use crate::Row;
use mm_base::Guid;

/// Whether a handle has an interface.
pub fn is_handle(rows: &[Row], handle: u64) -> bool
    ensures { result ≡ has_handle handle rows.now }
{
    rows.iter().any(|row| handle == row.handle)
}

/// How many of the rows an image has.
pub fn owned_count(rows: &[Row], owner: u32) -> usize
    ensures { result ≡ length (owned_by owner rows.now) }
{
    rows.iter().filter(|row| row.owner == owner).count()
}

/// The row at place `index` of those of a GUID; None past the last.
pub fn nth_of(rows: &[Row], guid: Guid, index: u64) -> Option<Row>
    ensures { result ≡ slice_get (rows_of guid rows.now) index }
{
    rows.iter()
        .filter(|row| guid == row.guid)
        .nth(index as usize)
        .copied()
}

/// The first row of a GUID.
pub fn find_first(rows: &[Row], guid: Guid) -> Option<Row>
    ensures { result ≡ first_of guid rows.now }
{
    rows.iter().find(|row| guid == row.guid).copied()
}
