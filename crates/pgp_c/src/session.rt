//! The session of a C program.

ghost use Rattle.std.specs.Prelude.{◌≡◌, Some, None, is_some, option_map};

use super::held_session::HeldSession;
use pgp_core::Session;
use std::alloc::Global;

/// What a C program keeps of a session: 16 bytes of its own, filled with zeros before the first call. It reads and writes none
/// of them. So a session that was never opened, or was closed, has a status, and no call requires an open one. It isn't `Drop`, so
/// none is let go that is open.
#[repr(C)]
pub struct PgpSession {
    /// Whether there is a session.
    pub is_open: bool,
    /// The session.
    pub held: HeldSession,
    ghost agrees: { is_open ≡ is_some held.session },
}

impl PgpSession {
    /// Takes the session out, if there is one. Each call does so and puts it back, so that few functions know of pointers.
    pub fn take(&mut self, alloc: Global) -> Option<Box<Session>>
        ensures value { option_map (λ box. box.value) result ≡ self.old.held.session }
        ensures closed { self.new.held.session ≡ None }
    {
        if !self.is_open {
            return None;
        }
        let closed = PgpSession {
            is_open: false,
            held: HeldSession::none(alloc),
        };
        let PgpSession { is_open: _, held } = std::mem::replace(self, closed);
        Some(held.into_box())
    }

    /// Puts a session in, where there is none: one that is there would never be freed.
    pub fn put(&mut self, session: Box<Session>)
        requires { self.old.held.session ≡ None }
        ensures { self.new.held.session ≡ Some session.value }
    {
        let opened = for_any_thread(PgpSession {
            is_open: true,
            held: HeldSession::of(session),
        });
        let PgpSession { is_open: _, held } = std::mem::replace(self, opened);
        held.end();
    }
}

/// The same value, which a C program may hand to another thread.
fn for_any_thread<T: Send>(value: T) -> T
    ensures { result ≡ value }
{
    value
}
