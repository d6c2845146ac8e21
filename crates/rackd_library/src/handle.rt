//! The handle of a rack, which a C program keeps.

ghost use Rattle.std.specs.Prelude.{◌≡◌, ◌≢◌, ◌<◌, Option, Some, None};
ghost use Rattle.rackd_library.specs.Held.{IsOpen};
ghost use Rattle.embedded_rack.specs.RackCalls.{EmbeddedRack as View};

use crate::answer::DONE;
use crate::parts::Parts;
use embedded_rack::EmbeddedRack;
use std::alloc::Global;
use std::marker::Model;
use std::mem::replace;
use std::ptr::null_mut;

/// The number of the fault that memory ran out.
pub(crate) const OUT_OF_MEMORY: u32 = 1;

/// The rack of a C program: open, or closed. C keeps the pointer, which is null if the rack is closed; an open handle owns
/// the rack, and may go to another thread with it.
#[repr(C)]
#[derive(Drop)]
pub struct Handle {
    ptr: *mut u8,
    alloc: Global,
    pub ghost rack: { Option View },
}

impl Model for Handle {
    ghost use Rattle.rackd_library.specs.Held.{held};

    ghost also_owns = { λ h. held h.alloc h.ptr h.rack };
}

unsafe impl Send for Handle {}

impl Handle {
    /// Returns a closed handle.
    pub(crate) fn closed(alloc: Global) -> Handle
        ensures { result.rack ≡ None }
    {
        Handle {
            ptr: null_mut(),
            alloc,
        }
    }

    /// Returns an open handle of the rack in a box that was taken apart.
    fn of_parts(parts: Parts<EmbeddedRack, Global>) -> Handle
        ensures { result.rack ≡ Some parts.value }
    {
        let Parts { ptr, alloc } = parts;
        Handle {
            ptr: ptr as *mut u8,
            alloc,
        }
    }

    /// Takes the box of an open handle apart.
    fn into_parts(self) -> Parts<EmbeddedRack, Global>
        requires { IsOpen self.rack }
        ensures { self.rack ≡ Some result.value }
    {
        let Handle { ptr, alloc } = self;
        Parts {
            ptr: ptr as *mut EmbeddedRack,
            alloc,
        }
    }

    /// Takes the rack; the handle is closed.
    pub(crate) fn take(&mut self, alloc: Global) -> Box<EmbeddedRack>
        requires { IsOpen self.old.rack }
        ensures rack { self.old.rack ≡ Some result.value }
        ensures closed { self.new.rack ≡ None }
    {
        replace(self, Handle::closed(alloc)).into_parts().into_box()
    }

    /// Puts a rack into the handle, and returns 0, or the number of `OutOfMemory`; then the handle stays.
    pub(crate) fn hold(&mut self, alloc: Global, rack: EmbeddedRack) -> u32
        ensures held { result ≡ 0 → self.new.rack ≡ Some rack }
        ensures refused { 0 < result → self.new.rack ≡ self.old.rack }
        ensures number { result ≢ OUT_OF_MEMORY → result ≡ 0 }
    {
        match Box::new(alloc, rack) {
            Ok(boxed) => {
                self.put(boxed);
                DONE
            }
            Err(_) => OUT_OF_MEMORY,
        }
    }

    /// Puts a rack into the handle.
    pub(crate) fn put(&mut self, rack: Box<EmbeddedRack>)
        ensures { self.new.rack ≡ Some rack.value }
    {
        *self = Handle::of_parts(Parts::of(rack));
    }
}
