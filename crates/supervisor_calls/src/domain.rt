//! A domain: what one invocation of one image may touch.
ghost use Rattle.std.specs.Prelude.{◌≡◌, ◌<◌, [], length};

use crate::tables::Tables;
use mm_base::{Frames, Records, Saved};
use std::marker::Model;

/// What one invocation of one image may touch, with its records. It owns the tables for that time.
#[derive(Drop)]
pub struct Domain<F: Frames> {
    pub(crate) tables: Tables<F>,
    pub(crate) image: u32,
    pub(crate) saved: Saved,
    pub(crate) records: Records,
}

impl<F: Frames> Model for Domain<F> {
    ghost use Rattle.supervisor_calls.specs.Domains.{DomainState};

    ghost Value = { DomainState };

    ghost view = { λ d. record { tables = d.tables; image = d.image; saved = d.saved; records = d.records } };

    ghost use Rattle.std.specs.Prelude.{◌<◌, length};

    ghost invariant = { λ d. d.image < length d.tables.site.images };
}

/// The domain of an invocation of an image, for which these registers were saved. It takes no memory and copies no page.
pub fn enter<F: Frames>(tables: Tables<F>, image: u32, saved: Saved, records: Records) -> Domain<F>
    requires admitted { image < length tables.site.images }
    requires blank { records ≡ record { denials = []; writes = [] } }
    ensures { result ≡ record { tables = tables; image = image; saved = saved; records = records } }
{
    Domain {
        tables,
        image,
        saved,
        records,
    }
}

impl<F: Frames> Domain<F> {
    /// The tables and the records, as they are then. It takes no memory and copies no page.
    pub fn leave(self) -> (Tables<F>, Records)
        ensures tables { result.0 ≡ self.tables }
        ensures records { result.1 ≡ self.records }
    {
        let Domain {
            tables,
            records,
            ..
        } = self;
        (tables, records)
    }
}
