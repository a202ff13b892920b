//! The bytes of an image where it is loaded.
ghost use Rattle.std.specs.Prelude.{◌≡◌, List, length};
ghost use Rattle.pe_loader.specs.Images.{IsImage, IsImageOf};
ghost use Rattle.pe_loader.specs.Loading.{loaded, IsLoaded};
ghost use Rattle.pe_loader.specs.declared.fixup.Fixup.{Fixup as FixupValue};

use crate::applying::apply_all;
use crate::layout::Layout;
use crate::window::{Window, lay_out};
use mm_base::Image;

/// Writes the bytes of an image that is loaded at `base`; linear in the image and its sections.
pub fn place(bytes: &[u8], image: &Image, base: u64, out: &mut [u8])
    requires image { IsImageOf bytes.now image.now }
    requires size { length out.old ≡ image.now.size }
    ensures stands { IsLoaded bytes.now base out.new }
    ensures value { (fixups : List FixupValue) → IsImage bytes.now image.now fixups → out.new ≡ loaded bytes.now image.now fixups base }
{
    lay_out(bytes, &Layout::of_image(image), &Window::front(), out);
    apply_all(&image.relocs, base.wrapping_sub(image.base), out);
}
