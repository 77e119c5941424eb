//! What a session knows of its log, as C reads it.

ghost use Rattle.std.specs.Prelude.{◌≡◌, map, true};
ghost use Rattle.std.specs.Arc.{arc_value};
ghost use Rattle.pgp_log.specs.Fits.{is_closed};
ghost use Rattle.pgp_log.specs.Log.{is_legal};
ghost use Rattle.pgp_c.specs.Log.{pgp_log};

use pgp_core::Session;
use pgp_ids::Entry;
use pgp_log::is_close;
use std::sync::Arc;

/// What a session knows of its log.
#[repr(C)]
#[derive(Clone, Copy)]
pub struct PgpLog {
    /// How many entries it has.
    pub count: usize,
    /// How many of them are incrementals.
    pub incrementals: usize,
    /// How many are infos.
    pub infos: usize,
    /// How many are parts of members' logs.
    pub parts: usize,
    /// The epoch of the last map, 0 before the first.
    pub epoch: u32,
    /// 1 where it is closed, else 0.
    pub closed: u8,
}

/// What the session knows of its log.
pub fn log_of(session: &Session) -> PgpLog
    ensures { result ≡ pgp_log session.now.log }
{
    let counts = session.counts();
    PgpLog {
        count: session.entries().len(),
        incrementals: counts.incrementals,
        infos: counts.infos,
        parts: counts.parts,
        epoch: session.epoch().number(),
        closed: u8::from(is_closed(session.entries())),
    }
}

/// The log of these entries is closed: its last one says so.
fn is_closed(entries: &[Arc<Entry>]) -> bool
    requires { is_legal (map arc_value entries.now) ≡ true }
    ensures { result ≡ is_closed (map arc_value entries.now) }
{
    match entries.last() {
        Some(last) => is_close(last),
        None => false,
    }
}
