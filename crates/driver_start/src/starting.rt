//! The start of a driver.
ghost use Rattle.std.specs.Prelude.{◌≡◌, List, IfOk};
ghost use Rattle.pe_loader.specs.Images.{IsImageOf};
ghost use Rattle.driver_start.specs.Starts.{Loadable, IsLoadable, has_started as is_started, started, told_as};

use crate::driver::Driver;
use crate::host::Host;
use crate::invoking::invoke_entry;
use crate::loading::{place_and_admit, region_on};
use crate::withdrawing::{Counters, withdraw};
use image_table::MOST_IMAGES;
use mm_base::{EXTRA_PAGES, Ended, Frames, NoMemory, Records, pages_for};
use std::alloc::Global;

/// How a start ended.
#[derive(Clone, Copy, Debug, PartialEq, Eq)]
pub enum StartEnd {
    /// Its entry was invoked, and ended so.
    Ran(Ended),
    /// There is no free run of pages that is long enough.
    NoPages,
    /// There are 32 images.
    TooMany,
}

/// The lowest status with the top bit, which says that an entry failed.
const LOWEST_ERROR: u64 = 1 << 63;

/// Whether an entry that ended so has succeeded.
fn has_started(ended: Ended) -> bool
    ensures { result ≡ is_started ended }
{
    match ended {
        Ended::Returned(status) => status < LOWEST_ERROR,
        _ => false,
    }
}

/// Starts a driver: its image goes to the lowest run of free pages that is long enough, is admitted, and its entry is invoked. Where the
/// entry fails the start is withdrawn, and nothing stays of it but what it wrote to cells; the records are told in each case. It takes
/// memory for the image's bytes, which it gives back, and for what tables keep of an image; where memory is refused the host is gone.
pub fn start<F: Frames + Drop>(
    alloc: Global,
    host: Host<F>,
    driver: &Driver,
) -> Result<(Host<F>, StartEnd, Records), NoMemory>
    requires { IsImageOf driver.now.bytes driver.now.image }
    ensures { (loadable : Loadable) → IsLoadable driver.now loadable → IfOk result (λ told. told_as told ≡ started loadable host) }
{
    let records = Records::new(alloc)?;
    let Host {
        mut tables,
        mut taken,
    } = host;
    tables.keeps_order();
    if tables.images() as usize == MOST_IMAGES {
        return Ok((Host { tables, taken }, StartEnd::TooMany, records));
    }
    let pages = pages_for(driver.image.size) + EXTRA_PAGES;
    let page = match taken.take(pages) {
        Some(page) => page,
        None => return Ok((Host { tables, taken }, StartEnd::NoPages, records)),
    };
    let counters = Counters {
        number: tables.next_number(),
        handle: tables.next_handle(),
    };
    place_and_admit(alloc, &mut tables, page, driver)?;
    tables.keeps_order();
    let region = region_on(page, driver.image.size);
    let (mut tables, records, ended) = invoke_entry(tables, records, region, driver.image.entry)?;
    if has_started(ended) {
        return Ok((Host { tables, taken }, StartEnd::Ran(ended), records));
    }
    withdraw(&mut tables, &mut taken, page, pages, counters);
    Ok((Host { tables, taken }, StartEnd::Ran(ended), records))
}
