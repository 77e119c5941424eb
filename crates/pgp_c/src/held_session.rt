//! A session behind a pointer that a C program holds.

ghost use Rattle.std.specs.Prelude.{◌≡◌, Option, Some, None, true, is_some};
ghost use Rattle.std.specs.Box.Ownership.{box_owns};
ghost use Rattle.pgp_core.specs.Session.{LogAndAnswer};
ghost use Rattle.pgp_c.specs.HeldSession.{held_owns, session_coded};

use pgp_core::Session;
use std::alloc::{Allocator, Global};
use std::marker::Model;
use std::ptr::null_mut;

/// A pointer to a session on the heap, or null. Its type is that of bytes, since C never looks at what it points to. It isn't
/// `Drop`, so that none is let go without its session: a box takes it back, or [`HeldSession::end`] says that there is none.
#[repr(C)]
pub struct HeldSession {
    at: *mut u8,
    alloc: Global,
    pub ghost session: { Option LogAndAnswer } by { session_coded },
}

impl Model for HeldSession {
    ghost also_owns = { λ held. held_owns held.alloc held.at held.session };
}

// A thread may go on with the session of another one: all that a session has may go with it.
unsafe impl Send for HeldSession {}

impl HeldSession {
    /// Null.
    pub fn none(alloc: Global) -> HeldSession
        ensures { result.session ≡ None }
    {
        HeldSession {
            at: null_mut(),
            alloc,
        }
    }

    /// Lets go of null.
    pub fn end(self)
        requires { self.session ≡ None }
    {
        let HeldSession { at: _, alloc: _ } = self;
    }

    /// The pointer to what the box holds.
    pub fn of(session: Box<Session>) -> HeldSession
        ensures { result.session ≡ Some session.value }
    {
        HeldSession::of_parts(Parts::of(session))
    }

    /// Gives the box back.
    pub fn into_box(self) -> Box<Session>
        requires { is_some self.session ≡ true }
        ensures { self.session ≡ Some result.value }
    {
        self.into_parts().into_box()
    }

    fn of_parts(parts: Parts<Session, Global>) -> HeldSession
        ensures { result.session ≡ Some parts.value }
    {
        let Parts { ptr, alloc } = parts;
        HeldSession {
            at: ptr as *mut u8,
            alloc,
        }
    }

    fn into_parts(self) -> Parts<Session, Global>
        requires { is_some self.session ≡ true }
        ensures { self.session ≡ Some result.value }
    {
        let HeldSession { at, alloc } = self;
        Parts {
            ptr: at as *mut Session,
            alloc,
        }
    }
}

/// The pointer and the allocator of a box.
struct Parts<T, A: Allocator> {
    ptr: *mut T,
    alloc: A,
    pub ghost value: { T },
}

impl<T, A: Allocator> Model for Parts<T, A> {
    ghost also_owns = { λ p. box_owns (A.dealloc_token p.alloc) T.row p.ptr p.value };
}

impl<T, A: Allocator> Parts<T, A> {
    /// Takes a box apart.
    fn of(b: Box<T, A>) -> Parts<T, A>
    where
        T: Drop,
        ensures { result.value ≡ b.value }
    {
        let (ptr, alloc) = Box::into_raw_with_allocator(b);
        Parts { ptr, alloc }
    }

    /// Puts the box together.
    fn into_box(self) -> Box<T, A>
        ensures { result.value ≡ self.value }
    {
        let Parts { ptr, alloc } = self;
        unsafe { Box::from_raw(alloc, ptr) }
    }
}
