//! Who leads a group in words, and which words go with a number.

ghost use Rattle.std.specs.Prelude.{◌≡◌, Some};
ghost use Rattle.pgp_group_words.specs.Names.{leader_name, plural as word_for};

use pgp_ids::OsdId;
use std::fmt;

/// The device that leads a group, where one does.
#[derive(Clone, Copy)]
pub(crate) struct Leader(pub Option<OsdId>);

impl fmt::Display for Leader {
    ghost output = { λ leader. Some (leader_name leader.0) };

    fn fmt<W: fmt::Write>(&self, f: &mut fmt::Formatter<W>) -> fmt::Result {
        match self.0 {
            Some(osd) => write!(f, "osd.{}", osd.number()),
            None => write!(f, "nobody"),
        }
    }
}

/// The noun or the verb for this many.
pub fn plural(count: usize, one: &'static str, more: &'static str) -> &'static str
    ensures { result.now ≡ word_for count one.now more.now }
{
    if count == 1 { one } else { more }
}
