//! The invocation of an image's entry.
ghost use Rattle.std.specs.Prelude.{true, ◌≡◌, ◌+◌, ◌^◌, ◌<◌, ◌≤◌, length, IfOk};
ghost use Rattle.ebc_machine.specs.Invocation.{IsRefusal};
ghost use Rattle.mm_base.specs.Regions.{IsAddressable};
ghost use Rattle.driver_start.specs.Starts.{blank, entry_run};

use domain_runs::run;
use mm_base::{Ended, Frames, NoMemory, Records, Region, Saved};
use supervisor_calls::{Tables, enter};

/// How an invocation ended, unless a service was refused a growth.
fn unless_refused(ended: Ended) -> Result<Ended, NoMemory>
    ensures value { IfOk result (λ told. told ≡ ended) }
    ensures ok { IfOk result (λ told. IsRefusal true ended → ⊥) }
{
    match ended {
        Ended::NoMemory(refused) => Err(refused),
        other => Ok(other),
    }
}

/// Invokes the entry of the last image, which stands at a place of its region. It answers how it ended, with its records.
pub(crate) fn invoke_entry<F: Frames + Drop>(
    tables: Tables<F>,
    records: Records,
    region: Region,
    entry: u32,
) -> Result<(Tables<F>, Records, Ended), NoMemory>
    requires some { 1 ≤ length tables.site.images }
    requires region { IsAddressable region }
    requires entry { region.base + entry < 2 ^ 64 }
    requires blank { records ≡ blank }
    ensures tables { IfOk result (λ told. told.0 ≡ (entry_run region entry tables).1.tables) }
    ensures records { IfOk result (λ told. told.1 ≡ (entry_run region entry tables).1.records) }
    ensures ended { IfOk result (λ told. told.2 ≡ (entry_run region entry tables).0) }
{
    let fuel = tables.fuel();
    let image = tables.images() - 1;
    let stack = region.stack();
    let arguments = [image as u64 + 1, region.service_page().base, 0, 0];
    let mut domain = enter(tables, image, Saved::ZERO, records);
    let ended = run(
        &mut domain,
        stack.base + stack.length,
        region.base + entry as u64,
        arguments,
        fuel,
    );
    let ended = unless_refused(ended)?;
    let (tables, records) = domain.leave();
    Ok((tables, records, ended))
}
