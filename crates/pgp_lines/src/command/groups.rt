//! The parts of a grouped pool.
ghost use Rattle.std.specs.Prelude.{◌≡◌};
ghost use Rattle.pgp_lines.specs.Value.{view};
ghost use Rattle.pgp_lines.specs.Groups.{part_in, groups_in};

use super::lists::{Plain, read_pair};
use super::numbers::read_slot;
use super::value::Value;
use pgp_ids::{MAX_PARTS, Part, Parts};

/// How many slots the list of a part has at most.
const MAX_SLOTS: usize = 16;

/// At most 16 parts, in the first of 16 places. The bound is judged as the list is walked: a longer one is refused after
/// its first 16 were read.
impl Plain for Parts {
    ghost plain = { groups_in };

    fn from_value(value: &Value<'_, '_>) -> Option<Parts> {
        let mut items = value.items()?;
        let mut groups = [None; MAX_PARTS];
        let mut count = 0;
        while let Some(item) = items.next() {
            if count >= MAX_PARTS {
                return None;
            }
            groups[count] = Some(read_part(&item)?);
            count += 1;
        }
        Some(Parts::new(groups))
    }
}

/// `[list of at most 16 slots, least]`.
fn read_part(value: &Value<'_, '_>) -> Option<Part>
    ensures { result ≡ part_in (view value.now) }
{
    let (list, least) = read_pair(value)?;
    let least = u8::from_value(&least)?;
    let mut items = list.items()?;
    let mut slots = [0; MAX_SLOTS];
    let mut count = 0;
    while let Some(item) = items.next() {
        if count >= MAX_SLOTS {
            return None;
        }
        slots[count] = read_slot(&item)?;
        count += 1;
    }
    Some(Part::new(&slots[..count], least))
}
