ghost use Rattle.std.specs.Prelude.{◌≡◌, ◌<◌, All};
ghost use Rattle.std.specs.Iterator.{YieldsFirst, item_count};
ghost use Rattle.pgp_prior.specs.Members.{members_of};

use pgp_ids::{Member, Osds, Place};
use std::marker::Model;

/// The members of a list of devices, in the order of their places. Contracts see it as the list of those that are left.
#[derive(Drop)]
pub struct Members<'a> {
    by_place: bool,
    places: &'a [Place],
    /// The place that is looked at next.
    place: u8,
}

impl<'a> Model for Members<'a> {
    ghost use Rattle.std.specs.Prelude.{List, ◌-◌, ◌≤◌, length, filter_map};
    ghost use Rattle.std.specs.List.{range_with_len};
    ghost use Rattle.pgp_ids.specs.declared.member.Member.{Member};
    ghost use Rattle.pgp_prior.specs.Members.{held_member};

    ghost Value = { List Member };

    ghost view = { λ m. filter_map (held_member m.by_place m.places.now)
        (range_with_len m.place (length m.places.now - m.place)) };

    ghost invariant = { λ m. length m.places.now ≤ 16 };
}

impl<'a> Iterator for Members<'a> {
    type Item = Member;

    ghost next_gives = { YieldsFirst (λ rest. rest) };

    ghost remaining = { item_count (λ rest. rest) };

    fn next(&mut self) -> Option<Member> {
        while let Some(held) = self.places.get(usize::from(self.place)) {
            let place = self.place;
            self.place += 1;
            if let Some(osd) = held.osd() {
                let slot = if self.by_place { place } else { 0 };
                return Some(Member { osd, slot });
            }
        }
        None
    }
}

/// The members of a list of devices. By place each has its place for its slot, otherwise it has slot 0.
pub fn members_of(by_place: bool, osds: &Osds) -> Members<'_>
    ensures members { result ≡ members_of by_place osds.now }
    ensures slots { All (λ member. member.slot < 16) result }
{
    Members {
        by_place,
        places: osds.as_slice(),
        place: 0,
    }
}
