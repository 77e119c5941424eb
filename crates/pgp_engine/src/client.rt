//! Who places objects.
use crate::entry_buffer::EntryBuffer;
use crate::naming::Naming;
use chart::Chart;
use pgp_feed::{Receipt, Tap};
use std::marker::{Model, PhantomData};

mod chart;
mod fault;
mod steps;

pub use fault::LocateFault;

/// It reads the published log by a tap of its own, waits for nobody, and places objects by what it has read. Contracts see its
/// front, which never goes back, and how much of it the chart has taken.
pub struct Client<J: Naming> {
    tap: Tap,
    front: Receipt,
    // It lags behind the front until an object is placed.
    chart: Chart,
    // Where what the chart has to take is read to.
    buffer: EntryBuffer,
    of: PhantomData<J>,
}

// Written out, so that a crate which lets one go has nothing to prove of what lies within.
impl<J: Naming> Drop for Client<J> {
    fn drop(self) {
        let Client {
            tap: _,
            front: _,
            chart: _,
            buffer: _,
            of: _,
        } = self;
    }
}

impl<J: Naming> Model for Client<J> {
    ghost use Rattle.pgp_engine.specs.Clients.{Placer};
    ghost use Rattle.pgp_engine.specs.kept.Members.{IsClientOf};

    ghost Value = { Placer };

    ghost view = { λ c. record { front = c.front; charted = c.chart.judge.count } };

    ghost invariant = { λ c. IsClientOf J.feed c.tap c.front c.chart };
}
