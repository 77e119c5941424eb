//! What is wrong with an incremental.

ghost use Rattle.std.specs.Prelude.{◌≡◌};
ghost use Rattle.pgp_map.specs.kept.Findings.{first_of};

use super::fault::MapFault;

/// The tests that an incremental that changes this map fails, in which nothing is twice, its tree aside.
#[derive(Clone, Copy)]
pub(crate) struct Findings {
    pub unknown_device: bool,
    pub already_up: bool,
    pub already_down: bool,
    pub still_up: bool,
    pub up_thru_back: bool,
    pub ahead: bool,
    pub bad_pool: bool,
    pub pool_known: bool,
    pub bad_temp: bool,
}

impl Findings {
    /// The first of them in the order of [`MapFault`].
    pub fn first(&self) -> Option<MapFault>
        ensures { result ≡ first_of self.now }
    {
        if self.unknown_device {
            Some(MapFault::UnknownDevice)
        } else if self.already_up {
            Some(MapFault::AlreadyUp)
        } else if self.already_down {
            Some(MapFault::AlreadyDown)
        } else if self.still_up {
            Some(MapFault::StillUp)
        } else if self.up_thru_back {
            Some(MapFault::UpThruBack)
        } else if self.ahead {
            Some(MapFault::Ahead)
        } else if self.bad_pool {
            Some(MapFault::BadPool)
        } else if self.pool_known {
            Some(MapFault::PoolKnown)
        } else if self.bad_temp {
            Some(MapFault::BadTemp)
        } else {
            None
        }
    }
}
