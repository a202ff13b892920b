//! The tables that a core keeps for its images.
ghost use Rattle.std.specs.Prelude.{◌≡◌, ◌+◌, ◌*◌, ◌-◌, ◌<◌, ◌≤◌, false, true, [], length, All, IfOk, OnErr};
ghost use Rattle.image_table.specs.HomeRanges.{IsPlaced};
ghost use Rattle.image_table.specs.ImageTable.{placed, region_at};
ghost use Rattle.image_table.specs.Sections.{AreApart, LieBetween};
ghost use Rattle.mm_base.specs.Platform.{mmram};
ghost use Rattle.mm_base.specs.Range.{encloses};
ghost use Rattle.mm_base.specs.Regions.{region_of};
ghost use Rattle.platform_model.specs.Cells.{IsPlatform};
ghost use Rattle.supervisor_calls.specs.Tables.{IsTables, IsRegionLive, number_for, with_image};
ghost use Rattle.supervisor_calls.specs.Within.{IsOrderly};

use image_table::{ImageTable, MOST_IMAGES};
use mm_base::{Frames, Guid, Image, List, NoMemory, Part, RESERVE_PAGES};
use mm_memory::Memory;
use mmi_registry::Registry;
use page_runs::RunMap;
use platform_model::Platform;
use pool_tree::PoolTree;
use protocol_db::ProtocolDb;
use secure_policy::Guard;
use std::alloc::Global;
use std::marker::Model;

/// What a core keeps for its images: memory, the images with their pools and reserves, the policy, the cells, the handlers and the
/// interfaces.
#[derive(Drop)]
pub struct Tables<F: Frames> {
    pub(crate) memory: Memory<F>,
    pub(crate) images: ImageTable,
    pub(crate) pools: Vec<PoolTree>,
    pub(crate) reserves: Vec<RunMap>,
    pub(crate) guard: Guard,
    pub(crate) platform: Platform,
    pub(crate) registry: Registry,
    pub(crate) protocols: ProtocolDb,
    pub(crate) locked: bool,
}

impl<F: Frames> Model for Tables<F> {
    ghost use Rattle.std.specs.Prelude.{◌≡◌, ◌≤◌, vec_capacity};
    ghost use Rattle.supervisor_calls.specs.Tables.{TablesState, IsTables};

    ghost Value = { TablesState };

    ghost view = { λ t. record {
      site = record { images = t.images; policy = t.guard };
      live = record { memory = t.memory.bytes; platform = t.platform; pools = t.pools.items; reserves = t.reserves.items };
      registry = t.registry;
      protocols = t.protocols;
      locked = t.locked;
      pages = t.memory.live;
    } };

    ghost invariant = { λ t. record {
      pools : 32 ≤ vec_capacity t.pools;
      reserves : 32 ≤ vec_capacity t.reserves;
      keeps : IsTables (record {
        site = record { images = t.images; policy = t.guard };
        live = record { memory = t.memory.bytes; platform = t.platform; pools = t.pools.items; reserves = t.reserves.items };
        registry = t.registry;
        protocols = t.protocols;
        locked = t.locked;
        pages = t.memory.live;
      });
    } };
}

impl<F: Frames + Drop> Tables<F> {
    /// Tables without images, handlers and interfaces, over memory of 8,192 pages. It takes the memory of the tables.
    pub fn new(
        alloc: Global,
        memory: Memory<F>,
        guard: Guard,
        platform: Platform,
    ) -> Result<Tables<F>, NoMemory>
        requires whole { length memory.bytes ≡ 33554432 }
        requires small { All (λ byte. byte < 256) memory.bytes }
        ensures { IfOk result (λ tables. tables ≡ record {
          site = record { images = []; policy = guard };
          live = record { memory = memory.bytes; platform = platform; pools = []; reserves = [] };
          registry = record { handlers = []; next = 0; frozen = false };
          protocols = record { rows = []; next = 256; frozen = false };
          locked = false;
          pages = memory.live;
        }) }
    {
        let images = ImageTable::new(alloc)?;
        let registry = Registry::new(alloc)?;
        let pools = Vec::with_capacity(alloc, MOST_IMAGES)?;
        let reserves = Vec::with_capacity(alloc, MOST_IMAGES)?;
        Ok(Tables {
            memory,
            images,
            pools,
            reserves,
            guard,
            platform,
            registry,
            protocols: ProtocolDb::new(alloc),
            locked: false,
        })
    }
}

impl<F: Frames> Tables<F> {
    /// Puts an image at the end, whose region begins at a base, with an empty pool and a reserve of which no page is taken. It answers
    /// the image's number; None where there is no place for one more, and then nothing changes. It takes the memory of the pool and
    /// of the reserve, and costs n log n steps for n sections.
    pub fn admit(
        &mut self,
        alloc: Global,
        name: Guid,
        base: u64,
        image: &Image,
        parts: List<Part>,
    ) -> Result<Option<u32>, NoMemory>
        requires region { encloses mmram (region_of (region_at base image.now)) ≡ true }
        requires live { IsRegionLive self.old.pages (placed name base image.now parts) }
        requires header { image.now.headers ≤ image.now.size }
        requires count { length parts ≡ image.now.parts }
        requires within { LieBetween image.now.headers image.now.size parts }
        requires apart { AreApart parts }
        ensures value { IfOk result (λ number. number ≡ number_for self.old.site.images) }
        ensures joins { IfOk result (λ number. self.new ≡ with_image number (placed name base image.now parts) self.old) }
        ensures err { OnErr result (self.new ≡ self.old) }
    {
        let pool = PoolTree::new(alloc)?;
        let reserve = RunMap::new(alloc, RESERVE_PAGES)?;
        self.keeps();
        match self.images.admit(name, base, image, parts) {
            Some(number) => {
                self.pools.push_reserved(pool);
                self.reserves.push_reserved(reserve);
                Ok(Some(number))
            }
            None => Ok(None),
        }
    }

    /// Ends registration and installation, for good.
    pub fn lock(&mut self)
        ensures { self.new ≡ record self.old {
          registry = record self.old.registry { frozen = true };
          protocols = record self.old.protocols { frozen = true };
          locked = true;
        } }
    {
        self.registry.freeze();
        self.protocols.freeze();
        self.locked = true;
    }

    /// How many images there are: 32 at most.
    pub fn images(&self) -> u32
        ensures value { result ≡ length self.now.site.images }
        ensures most { length self.now.site.images ≤ 32 }
    {
        self.images.len() as u32
    }

    /// Whether handlers may be registered no more.
    #[inline(always)]
    pub fn is_locked(&self) -> bool
        ensures { result ≡ self.now.locked }
    {
        self.locked
    }

    /// What holds of all tables, and of their images.
    pub fn keeps(&self)
        ensures tables { IsTables self.now }
        ensures placed { All IsPlaced self.now.site.images }
        ensures few { length self.now.site.images ≤ 32 }
    {
        let _ = self.images.len();
    }

    /// All cells of the platform's map are there.
    pub fn keeps_cells(&self)
        ensures { IsPlatform self.now.live.platform }
    {
        self.platform.keeps();
    }

    /// All tables are as the law asks of what a domain's calls leave alone.
    pub fn keeps_order(&self)
        ensures orderly { IsOrderly self.now }
    {
        self.keeps();
        let _ = self.registry.next_number();
        let _ = self.protocols.rows();
        let _ = self.protocols.next();
    }
}
