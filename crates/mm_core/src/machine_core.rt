//! The core: the machine that answers captured requests.
ghost use Rattle.std.specs.Prelude.{◌≡◌, ◌≤◌, ◌<◌, [], Some, not, true, length, slice_get, IfOk};
ghost use Rattle.image_table.specs.ImageTable.{name_at};
ghost use Rattle.mm_base.specs.Entry.{blank_entry};
ghost use Rattle.mmi_registry.specs.Handlers.{chain_of};
ghost use Rattle.mm_core.specs.CodeInside.{IsInvoked};
ghost use Rattle.mm_core.specs.CoreState.{core_of_tables, without_images};
ghost use Rattle.mm_core.specs.EntryStep.{has_none};
ghost use Rattle.mm_core.specs.Invoked.{code_invoked};
ghost use Rattle.volume_boot.specs.Boots.{AreBooted};

use crate::buffer::Buffer;
use crate::code::{Code, invoke_code};
use crate::core_parts::CoreParts;
use crate::entry_step::outcome_of;
use mm_base::{Ended, Guid, Handler, Machine, NoMemory, Prepared, Records, Saved};
use mm_memory::PlainFrames;
use mmi_registry::Registry;
use platform_model::Platform;
use std::alloc::Global;
use std::marker::Model;
use supervisor_calls::Tables;

/// A core: its images, its handlers and its interfaces, which are frozen, its memory and the cells of the platform. A script's has no images.
#[derive(Drop)]
pub struct Core {
    pub(crate) parts: CoreParts,
}

impl Model for Core {
    ghost use Rattle.mm_core.specs.CoreState.{CoreState};
    ghost use Rattle.mm_core.specs.PartsInside.{core_seen, IsCore};

    ghost Value = { CoreState };

    ghost view = { λ c. core_seen c.parts };

    ghost invariant = { λ c. IsCore c.parts };
}

impl Core {
    /// The core without images that has these handlers and cells. Registration is over.
    pub(crate) fn of_script(registry: Registry, platform: Platform) -> Core
        requires { registry.frozen ≡ true }
        ensures { result ≡ without_images registry.handlers platform }
    {
        Core {
            parts: CoreParts::Scripted(registry, platform),
        }
    }

    /// The core that has these tables, which a boot left.
    pub(crate) fn of_tables(tables: Tables<PlainFrames>) -> Core
        requires { AreBooted tables }
        ensures { result ≡ core_of_tables tables }
    {
        Core {
            parts: CoreParts::Booted(Some(tables)),
        }
    }

    /// How many images are loaded: 32 at most.
    pub fn images(&self) -> u32
        ensures value { result ≡ length self.now.site.supervised.images }
        ensures most { length self.now.site.supervised.images ≤ 32 }
    {
        match &self.parts {
            CoreParts::Scripted(..) => 0,
            CoreParts::Booted(Some(tables)) => tables.images(),
            CoreParts::Booted(None) => unreachable!(),
        }
    }

    /// The name of an image, which is there.
    pub fn name(&self, image: u32) -> Guid
        requires { image < length self.now.site.supervised.images }
        ensures { result ≡ name_at self.now.site.supervised.images image }
    {
        match &self.parts {
            CoreParts::Scripted(..) => unreachable!(),
            CoreParts::Booted(Some(tables)) => tables.name(image),
            CoreParts::Booted(None) => unreachable!(),
        }
    }

    /// How many handlers there are: 321 at most.
    pub fn handlers(&self) -> u32
        ensures { result ≡ length self.now.site.handlers }
    {
        match &self.parts {
            CoreParts::Scripted(registry, _) => registry.len() as u32,
            CoreParts::Booted(Some(tables)) => tables.handlers() as u32,
            CoreParts::Booted(None) => unreachable!(),
        }
    }

    /// The handler at place `k` of all, in order of registration; None past the last.
    pub fn handler(&self, k: u32) -> Option<Handler>
        ensures { result ≡ slice_get self.now.site.handlers k }
    {
        match &self.parts {
            CoreParts::Scripted(registry, _) => registry.all(k),
            CoreParts::Booted(Some(tables)) => tables.handler(k),
            CoreParts::Booted(None) => unreachable!(),
        }
    }

    /// How many interfaces are installed: 512 at most.
    pub fn protocols(&self) -> u32
        ensures { result ≡ length self.now.site.interfaces.rows }
    {
        match &self.parts {
            CoreParts::Scripted(..) => 0,
            CoreParts::Booted(Some(tables)) => tables.interfaces() as u32,
            CoreParts::Booted(None) => unreachable!(),
        }
    }

    /// Whether a handler is registered for this GUID. It costs one step a handler.
    pub(crate) fn has_handler(&self, guid: Guid) -> bool
        ensures { result ≡ not (has_none (chain_of (Some guid) self.now.site.handlers)) }
    {
        match &self.parts {
            CoreParts::Scripted(registry, _) => registry.chain(guid, 0).is_some(),
            CoreParts::Booted(Some(tables)) => tables.chain(guid, 0).is_some(),
            CoreParts::Booted(None) => unreachable!(),
        }
    }

    /// Invokes code of an image with the message of an entry: its communicate page is filled, it runs under the policy's fuel, and the
    /// message is what it left in the page. A root handler hands nothing back. It answers how it ended, with its records.
    pub(crate) fn invoke_code(
        &mut self,
        handler: &Handler,
        code: Code,
        saved: Saved,
        buffer: &mut Buffer,
        records: Records,
    ) -> (Records, Ended)
        requires admitted { code.image < length self.old.site.supervised.images }
        requires blank { records ≡ record { denials = []; writes = [] } }
        ensures { let run = code_invoked self.old.site saved handler.now code.image code.address
            (slice_get self.old.site.supervised.images code.image) buffer.old.message self.old.live in
            IsInvoked self.old handler.now.number run buffer.old result self.new buffer.new }
    {
        match &mut self.parts {
            CoreParts::Scripted(..) => unreachable!(),
            CoreParts::Booted(place) => {
                let tables = place.take().unwrap();
                tables.keeps();
                let (tables, records, ended) = invoke_code(
                    tables, handler, code, saved, buffer, records,
                );
                *place = Some(tables);
                (records, ended)
            }
        }
    }

    /// The memory of an entry whose request has `bytes` bytes at most. It costs one step a handler.
    pub fn prepare(&self, alloc: Global, bytes: u32) -> Result<Prepared, NoMemory>
        requires { bytes ≤ 4096 }
        ensures { IfOk result (λ p. p ≡ record {
          entry = blank_entry;
          captured = record { items = []; room = bytes };
          reply = bytes;
          calls = length self.now.site.handlers;
          second = bytes;
        }) }
    {
        Prepared::new(alloc, bytes, self.handlers())
    }
}

impl Machine for Core {
    ghost use Rattle.std.specs.Prelude.{length};
    ghost use Rattle.mm_core.specs.EntryStep.{core_step};
    ghost use Rattle.mm_core.specs.MachineLemmas.{core_step-keeps, core_step-within};

    ghost stepped = { core_step };

    ghost most_calls = { λ core. length core.site.handlers };

    fn calls(&self) -> u32 {
        self.handlers()
    }

    fn step(&mut self, prepared: &mut Prepared) {
        let rooms = prepared.rooms();
        let outcome = outcome_of(self, &prepared.entry().request, rooms);
        prepared.finish(outcome);
    }

    ghost calls_stay = { core_step-keeps };

    ghost within = { core_step-within };
}
