//! Fixups, applied to an image that lies in its plain form. What they are is read from what is written: a fixup that touches the directory
//! is refused, so its bytes stay those of the plain form.
ghost use Rattle.std.specs.Prelude.{◌≡◌, ◌+◌, ◌≤◌, false, List, length, fold, MatchOption};
ghost use Rattle.mm_base.specs.declared.range.Range.{Range as RangeValue};
ghost use Rattle.pe_loader.specs.Fixups.{is_block, directory_end, fixups_from, AreFixups, AreRead};
ghost use Rattle.pe_loader.specs.Loading.{fixed};
ghost use Rattle.pe_loader.specs.ReadingInside.{IsHead, EntriesPass};
ghost use Rattle.pe_loader.specs.declared.fixup.Fixup.{Fixup as FixupValue};

use crate::fixup::Fixup;
use crate::head::{HEAD_BYTES, Head};
use crate::numbers::{u16_at, u32_at};
use mm_base::Range;

/// The head of the block at a place of a form, where there is one.
fn head_in(form: &[u8], directory: &Range, at: usize) -> Option<Head>
    requires fits { directory_end directory.now ≤ length form.now }
    requires near { at ≤ directory_end directory.now }
    ensures { MatchOption result (is_block form.now directory.now at ≡ false) (IsHead form.now directory.now at) }
{
    let end = directory.base as usize + directory.length as usize;
    if end - at < HEAD_BYTES {
        return None;
    }
    let page = u32_at(form, at);
    let size = u32_at(form, at + 4);
    if size == 0 {
        return None;
    }
    Some(Head { page, size })
}

/// Applies so many fixups whose entries begin at a place, in a block for this page; linear in them.
fn apply_entries(page: u32, at: usize, count: usize, difference: u64, out: &mut [u8])
    requires { (directory : RangeValue) × EntriesPass out.old directory page at count }
    ensures { out.new ≡ fold (fixed difference) out.old (fixups_from out.old page at count) }
{
    for k in 0..count {
        let word = u16_at(out, at + 2 * k);
        Fixup::of(page, word).apply(difference, out);
    }
}

/// Applies all fixups of a directory; linear in it.
pub(crate) fn apply_all(directory: &Range, difference: u64, out: &mut [u8])
    requires { AreRead out.old (length out.old) directory.now }
    ensures { (fixups : List FixupValue) → AreFixups out.old (length out.old) directory.now fixups
        → out.new ≡ fold (fixed difference) out.old fixups }
{
    let mut at = directory.base as usize;
    while let Some(head) = head_in(out, directory, at) {
        let count = (head.size as usize - HEAD_BYTES) / 2;
        apply_entries(head.page, at + HEAD_BYTES, count, difference, out);
        at += head.size as usize;
    }
}
