//! What a core does to its tables where it starts an image.
ghost use Rattle.std.specs.Prelude.{◌≡◌, ◌+◌, ◌<◌, ◌≤◌, length, All};
ghost use Rattle.mm_base.specs.Frames.{zeros};
ghost use Rattle.mm_base.specs.Numbers.{overwritten};
ghost use Rattle.mm_memory.specs.Flat.{AreLive};
ghost use Rattle.mmi_registry.specs.Handlers.{without_image};
ghost use Rattle.mmi_registry.specs.Registry.{IsNumbered};
ghost use Rattle.protocol_db.specs.ProtocolDb.{IsDb};
ghost use Rattle.protocol_db.specs.Rows.{without_owner};
ghost use Rattle.supervisor_calls.specs.Loading.{last_image, with_memory, without_last};

use crate::tables::Tables;
use mm_base::Frames;

impl<F: Frames> Tables<F> {
    /// How much fuel the policy gives an invocation.
    pub fn fuel(&self) -> u32
        ensures { result ≡ self.now.site.policy.fuel }
    {
        self.guard.policy().fuel
    }

    /// The number that the next handler gets.
    pub fn next_number(&self) -> u32
        ensures value { result ≡ self.now.registry.next }
        ensures numbered { IsNumbered self.now.registry.handlers self.now.registry.next }
    {
        self.registry.next_number()
    }

    /// The handle that the next new one is.
    pub fn next_handle(&self) -> u64
        ensures value { result ≡ self.now.protocols.next }
        ensures installed { IsDb self.now.protocols.rows self.now.protocols.next }
    {
        let _ = self.protocols.rows();
        self.protocols.next()
    }

    /// Copies bytes into memory, from a place on. It costs one copy for each page that they lie in.
    pub fn load(&mut self, at: u32, bytes: &[u8])
        requires within { at + length bytes.now ≤ 33554432 }
        requires live { AreLive self.old.pages at (length bytes.now) }
        ensures { self.new ≡ with_memory (overwritten self.old.live.memory at bytes.now) self.old }
    {
        self.keeps();
        self.memory.copy_in(at, bytes);
    }

    /// Fills `count` bytes of memory from `at` with zeros. It costs one step for each page that lies in them whole.
    pub fn clear(&mut self, at: u32, count: u32)
        requires within { at + count ≤ 33554432 }
        requires live { AreLive self.old.pages at count }
        ensures { self.new ≡ with_memory (overwritten self.old.live.memory at (zeros count)) self.old }
    {
        self.keeps();
        self.memory.clear(at, count);
    }

    /// Takes the last image out again with its pool, its reserve, its handlers and its interfaces, and sets the next handler's number
    /// and the next handle. Its pages stay as they are. It costs a step a handler and a row.
    pub fn withdraw(&mut self, next_number: u32, next_handle: u64)
        requires some { 1 ≤ length self.old.site.images }
        requires number { next_number ≤ self.old.registry.next }
        requires handle { next_handle ≤ self.old.protocols.next }
        requires numbers { let left = without_image (last_image self.old) self.old.registry.handlers in
            All (λ handler. handler.number < next_number) left }
        requires handles { let left = without_owner (last_image self.old) self.old.protocols.rows in
            All (λ row. row.handle < next_handle) left }
        ensures { self.new ≡ without_last next_number next_handle self.old }
    {
        self.keeps();
        let image = self.images() - 1;
        self.images.withdraw(image);
        self.pools.truncate(image as usize);
        self.reserves.truncate(image as usize);
        self.registry.forget(image, next_number);
        self.protocols.forget(image, next_handle);
    }
}
