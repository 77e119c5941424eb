//! The table of weights.

ghost use Rattle.std.specs.Prelude.{◌≡◌, ℕ, ◌<◌, true, nat_eq, slice_index_or, length, OnOk, OnErr};
ghost use Rattle.pgp_lists.specs.Last.{last_where};
ghost use Rattle.pgp_map.specs.Memory.{is_filled};
ghost use Rattle.pgp_map.specs.WeightTable.{is_full_weight, weight_in, with_weight};

use pgp_crush::DEVICES;
use pgp_ids::{DeviceWeight, OsdId};
use std::alloc::{AllocError, Global};

/// The weight of a device that is fully in, in units of 1/0x10000.
const FULL: u32 = 0x10000;

/// The weights of a map that was given none.
static ALL_FULL: [u32; DEVICES] = [FULL; DEVICES];

/// The weights of all devices. The table takes no memory until the first is given.
#[derive(Drop)]
pub(crate) struct Weights {
    alloc: Global,
    table: Vec<u32>,
    ghost whole: { is_full_weight (length table.items) ≡ true },
}

impl Weights {
    /// All devices are fully in.
    pub fn new(alloc: Global) -> Self
        ensures { (q : ℕ) → weight_in result.table.items q ≡ FULL }
    {
        Weights {
            alloc,
            table: Vec::new(alloc),
        }
    }

    /// The weights of the devices 0 to 4095.
    pub fn as_slice(&self) -> &[u32]
        ensures long { length result.now ≡ DEVICES }
        ensures value { (q : ℕ) → q < DEVICES → slice_index_or result.now q FULL ≡ weight_in self.now.table.items q }
    {
        if self.table.is_empty() {
            &ALL_FULL
        } else {
            &self.table
        }
    }

    /// The weight of the device.
    pub fn weight(&self, osd: OsdId) -> u32
        ensures { result ≡ weight_in self.now.table.items osd }
    {
        let weight = self.table.get(usize::from(osd.number()));
        weight.copied().unwrap_or(FULL)
    }

    /// Takes the memory for the table, if it has none and will need it for these weights.
    #[tactic(auto, using(std::proofs::lemmas::Bool::Decides::nat_tests))]
    pub fn place(&mut self, given: &[DeviceWeight]) -> Result<(), AllocError>
        ensures same { (q : ℕ) → weight_in self.new.table.items q ≡ weight_in self.old.table.items q }
        ensures placed { OnOk result (0 < length given.now → length self.new.table.items ≡ DEVICES) }
        ensures wants { OnErr result (is_filled given.now ≡ true) }
    {
        if self.table.is_empty() && !given.is_empty() {
            self.table = vec![in self.alloc; FULL; DEVICES]?;
        }
        Ok(())
    }

    /// Gives these weights. The table is there, if there are any.
    #[tactic(auto, using(crate::proofs::WeightLemmas::weight_steps))]
    pub fn set_all(&mut self, given: &[DeviceWeight])
        requires { 0 < length given.now → length self.old.table.items ≡ DEVICES }
        ensures { (q : ℕ) → weight_in self.new.table.items q ≡ with_weight (last_where (λ entry. nat_eq entry.osd q) given.now) (weight_in self.old.table.items q) }
    {
        for entry in given {
            self.table[usize::from(entry.osd.number())] = entry.weight;
        }
    }
}
