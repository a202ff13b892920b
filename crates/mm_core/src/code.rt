//! Handlers that are code of an image.
ghost use Rattle.std.specs.Prelude.{◌≡◌, ◌+◌, ◌<◌, ◌≤◌, true, [], ◌∷◌, length};
ghost use Rattle.mm_base.specs.Regions.{IsAddressable};
ghost use Rattle.mm_core.specs.CodeInside.{IsCodeInvoked, IsInMemory, run_over};
ghost use Rattle.mm_core.specs.CodeRun.{addresses};
ghost use Rattle.volume_boot.specs.Boots.{AreBooted};

use crate::buffer::Buffer;
use crate::page::{fill, region_of, take_back};
use domain_runs::run;
use mm_base::{Ended, Handler, Records, Region, Saved};
use mm_memory::PlainFrames;
use supervisor_calls::{Tables, enter_locked};

/// Code of an image: the image's number, and the address where it begins.
#[derive(Clone, Copy)]
pub(crate) struct Code {
    pub image: u32,
    pub address: u64,
}

/// The arguments of a handler whose image's communicate page stands at this address: its number + 1, 0, and the addresses of the
/// buffer and of its size, which are 0 for a root handler.
fn arguments_of(handler: &Handler, region: Region) -> [u64; 4]
    requires { IsAddressable region }
    ensures { result ≡ (handler.now.number + 1) ∷ 0 ∷ addresses handler.now.guid region }
{
    let number = handler.number as u64 + 1;
    if handler.guid.is_none() {
        return [number, 0, 0, 0];
    }
    let page = region.communicate_page().base;
    [number, 0, page + 8, page]
}

/// Runs code of an image over its domain, and answers how it ended, with its records.
fn run_code(
    tables: Tables<PlainFrames>,
    handler: &Handler,
    code: Code,
    region: Region,
    saved: Saved,
    records: Records,
) -> (Tables<PlainFrames>, Records, Ended)
    requires locked { tables.locked ≡ true }
    requires admitted { code.image < length tables.site.images }
    requires region { IsInMemory region }
    requires blank { records ≡ record { denials = []; writes = [] } }
    ensures tables { result.0 ≡ (run_over saved handler.now code.image code.address region tables).1.tables }
    ensures records { result.1 ≡ (run_over saved handler.now code.image code.address region tables).1.records }
    ensures ended { result.2 ≡ (run_over saved handler.now code.image code.address region tables).0 }
{
    let fuel = tables.fuel();
    let stack = region.stack();
    let arguments = arguments_of(handler, region);
    let mut domain = enter_locked(tables, code.image, saved, records);
    let ended = run(
        &mut domain,
        stack.base + stack.length,
        code.address,
        arguments,
        fuel,
    );
    let (tables, records) = domain.leave();
    (tables, records, ended)
}

/// Invokes code of an image with the message of an entry, and answers how it ended, with its records. The tables stay locked, and nothing
/// of them changes but what a step may change.
pub(crate) fn invoke_code(
    tables: Tables<PlainFrames>,
    handler: &Handler,
    code: Code,
    saved: Saved,
    buffer: &mut Buffer,
    records: Records,
) -> (Tables<PlainFrames>, Records, Ended)
    requires booted { AreBooted tables }
    requires admitted { code.image < length tables.site.images }
    requires blank { records ≡ record { denials = []; writes = [] } }
    ensures booted { AreBooted result.0 }
    ensures invoked { IsCodeInvoked tables handler.now code.image code.address saved buffer.old result buffer.new }
{
    let mut tables = tables;
    let region = region_of(&tables, code.image);
    fill(&mut tables, region, buffer);
    let (tables, records, ended) = run_code(tables, handler, code, region, saved, records);
    if handler.guid.is_some() {
        take_back(&tables, region, buffer);
    }
    tables.keeps_order();
    (tables, records, ended)
}
