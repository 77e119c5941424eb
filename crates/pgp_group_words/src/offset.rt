ghost use Rattle.std.specs.Prelude.{◌≡◌};
ghost use Rattle.pgp_group_words.specs.Names.{cluster_epoch};

use pgp_ids::Epoch;
use pgp_text::EpochNumbers;

/// By how much the epochs of a cluster are ahead of those of the script that was made of its maps.
#[derive(Clone, Copy, Debug, PartialEq, Eq)]
pub struct EpochOffset(pub u32);

impl EpochOffset {
    /// The epoch as the cluster counts it. Epoch 0, before the first map, stays 0.
    pub fn cluster_epoch(self, epoch: Epoch) -> u64
        ensures { result ≡ cluster_epoch self epoch }
    {
        match epoch.number() {
            0 => 0,
            number => u64::from(number) + u64::from(self.0),
        }
    }
}

/// As the cluster counts them.
impl EpochNumbers for EpochOffset {
    ghost number = { cluster_epoch };

    fn number(self, epoch: Epoch) -> u64 {
        self.cluster_epoch(epoch)
    }
}
