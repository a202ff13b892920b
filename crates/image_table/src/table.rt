//! The table of images. All its memory is taken when it is made; an image brings the list of its sections with it.
ghost use Rattle.std.specs.Prelude.{◌≡◌, ◌↔◌, ◌+◌, ◌<◌, ◌≤◌, Some, [], ◌∷◌, ◌++◌, length, slice_get, take, All, IsNone, IfSome, IfNone, IfOk, OnSome, true, option_map};
ghost use Rattle.mm_base.specs.Platform.{mmram};
ghost use Rattle.mm_base.specs.Range.{encloses};
ghost use Rattle.mm_base.specs.Regions.{pages_filled, region_of};
ghost use Rattle.image_table.specs.HomeRanges.{IsPlaced};
ghost use Rattle.image_table.specs.ImageTable.{home_ranges_at, is_home_at, name_at, placed, region_at};
ghost use Rattle.image_table.specs.Sections.{AreApart, LieBetween};

use crate::PlacedImage;
use crate::sections::by_address;
use mm_base::{
    GUID_BYTES, Guid, Homes, Image, List, NoMemory, Part, Range, Region, Right, pages_for,
};
use std::alloc::Global;
use std::marker::Model;

/// How many images there may be.
pub const MOST_IMAGES: usize = 32;

/// The images in memory in order of admission. The first has the number 0.
#[derive(Debug, Drop)]
pub struct ImageTable {
    images: Vec<PlacedImage>,
}

impl Model for ImageTable {
    ghost use Rattle.std.specs.Prelude.{List as Items, vec_capacity};
    ghost use Rattle.image_table.specs.declared.placed_image.PlacedImage.{PlacedImage as Placed};

    ghost Value = { Items Placed };

    ghost use Rattle.image_table.specs.ImageTable.{IsTable};

    ghost view = { λ t. t.images.items };

    ghost invariant = { λ t. IsTable t.images.items (vec_capacity t.images) };
}

impl ImageTable {
    /// A table without images. It takes the memory for all that may come, so that no other call takes any.
    pub fn new(alloc: Global) -> Result<ImageTable, NoMemory>
        ensures { IfOk result (λ table. table ≡ []) }
    {
        let images = Vec::with_capacity(alloc, MOST_IMAGES)?;
        Ok(ImageTable { images })
    }

    /// Puts an image at the end: its region begins at `base`, and these are its sections, in whatever order they come. It
    /// answers the image's number; None where there is no place for one more, and then nothing changes. It takes no memory,
    /// and costs n log n steps for n sections.
    pub fn admit(&mut self, name: Guid, base: u64, image: &Image, parts: List<Part>) -> Option<u32>
        requires region { encloses mmram (region_of (region_at base image.now)) ≡ true }
        requires header { image.now.headers ≤ image.now.size }
        requires count { length parts ≡ image.now.parts }
        requires within { LieBetween image.now.headers image.now.size parts }
        requires apart { AreApart parts }

        ensures none { IsNone result ↔ (length self.old ≡ 32) }
        ensures value { IfSome result (λ number. number ≡ length self.old) }
        ensures joins { OnSome result (self.new ≡ self.old ++ placed name base image.now parts ∷ []) }
        ensures unchanged { IfNone result (self.new ≡ self.old) }
    {
        let number = self.images.len();
        if number == MOST_IMAGES {
            return None;
        }
        let region = Region {
            base,
            pages: pages_for(image.size),
        };
        let sections = by_address(parts);
        self.images.push_reserved(PlacedImage {
            name,
            region,
            headers: image.headers,
            sections,
        });
        Some(number as u32)
    }

    /// Takes the last image out again. The others stay as they are.
    pub fn withdraw(&mut self, image: u32)
        requires { image + 1 ≡ length self.old }
        ensures { self.new ≡ take image self.old }
    {
        self.images.truncate(image as usize);
    }

    /// How many images there are: 32 at most.
    pub fn len(&self) -> usize
        ensures value { result ≡ length self.now }
        ensures most { length self.now ≤ 32 }
        ensures each { All IsPlaced self.now }
    {
        self.images.len()
    }

    /// The address at which an image's region begins.
    pub fn base(&self, image: u32) -> u64
        requires { image < length self.now }
        ensures { option_map (λ placed. placed.region.base) (slice_get self.now image) ≡ Some result }
    {
        self.images[image as usize].region.base
    }

    /// How many pages the bytes of an image fill. They are the first of its region.
    pub fn pages(&self, image: u32) -> u32
        requires { image < length self.now }
        ensures { option_map (λ placed. placed.region.pages) (slice_get self.now image) ≡ Some result }
    {
        self.images[image as usize].region.pages
    }

    /// How many home ranges an image has. It costs one step.
    pub fn ranges(&self, image: u32) -> u32
        requires { image < length self.now }
        ensures value { result ≡ length (home_ranges_at self.now image) }
        ensures most { length (home_ranges_at self.now image) ≤ 33554438 }
    {
        self.images[image as usize].ranges()
    }

    /// The home range at place `k` of an image by rising address, with the bits of its rights (1 for read, 2 for write, 4 for
    /// execute); None past the last. It costs a bounded number of steps.
    pub fn range(&self, image: u32, k: u32) -> Option<(Range, u8)>
        requires { image < length self.now }
        ensures { result ≡ slice_get (home_ranges_at self.now image) k }
    {
        self.images[image as usize].range(k)
    }
}

impl Homes for ImageTable {
    ghost is_home = { is_home_at };

    ghost name_of = { name_at };

    /// It costs a number of steps in the logarithm of the image's sections.
    fn home(&self, image: u32, range: Range, right: Right) -> bool {
        match self.images.get(image as usize) {
            Some(placed) => placed.owns(&range, right),
            None => false,
        }
    }

    fn owner(&self, image: u32) -> Guid {
        match self.images.get(image as usize) {
            Some(placed) => placed.name,
            None => Guid([0; GUID_BYTES]),
        }
    }
}
