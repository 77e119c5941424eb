//! Why a list of buckets is no tree.

ghost use Rattle.std.specs.Prelude.{◌≡◌};
ghost use Rattle.pgp_crush.specs.TreeFault.{tree_refusal_number, tree_fault_number};

use std::alloc::AllocError;
use std::error::Error;
use std::fmt;

/// Why a list of buckets is no placement tree. One with several faults has the first in this order.
#[derive(Clone, Copy, Debug, PartialEq, Eq)]
pub enum TreeFault {
    /// Not exactly one bucket is an item of none.
    NoRoot,
    /// A bucket's id is twice in the list, or an item in two places.
    TwiceHeld,
    /// A bucket's type is 0, or not above that of each bucket in it.
    WrongType,
    /// An item is no bucket of the list, and no device of a number up to 4095.
    Unknown,
    /// More than 10 levels of buckets stand above one another.
    TooDeep,
    /// There are more than 1,024 buckets, or more than 256 items in one.
    TooMany,
    /// The weights of a bucket make more than 2^32 - 1.
    WeightSum,
    /// There was no memory to look at the list.
    Memory,
}

impl TreeFault {
    /// The number of the refusal in answers.
    pub fn number(self) -> u8
        ensures { result ≡ tree_refusal_number self }
    {
        match self {
            TreeFault::Memory => 51,
            _ => 21,
        }
    }

    /// The number of the fault among those of a tree, 1 to 7.
    pub fn tree(self) -> Option<u8>
        ensures { result ≡ tree_fault_number self }
    {
        match self {
            TreeFault::NoRoot => Some(1),
            TreeFault::TwiceHeld => Some(2),
            TreeFault::WrongType => Some(3),
            TreeFault::Unknown => Some(4),
            TreeFault::TooDeep => Some(5),
            TreeFault::TooMany => Some(6),
            TreeFault::WeightSum => Some(7),
            TreeFault::Memory => None,
        }
    }
}

impl fmt::Display for TreeFault {
    fn fmt<W: fmt::Write>(&self, f: &mut fmt::Formatter<W>) -> fmt::Result {
        f.write_str(match self {
            TreeFault::NoRoot => "the tree has not exactly one root",
            TreeFault::TwiceHeld => "a bucket's id or an item is twice in the tree",
            TreeFault::WrongType => "a bucket's type is 0, or not above that of a bucket in it",
            TreeFault::Unknown => "an item is neither a bucket of the tree nor a device",
            TreeFault::TooDeep => "the tree has more than 10 levels of buckets",
            TreeFault::TooMany =>
                "the tree has more than 1024 buckets, or a bucket more than 256 items",
            TreeFault::WeightSum => "the weights of a bucket make more than 4294967295",
            TreeFault::Memory => "out of memory",
        })
    }
}

impl Error for TreeFault {}

impl From<AllocError> for TreeFault {
    ghost use Rattle.pgp_crush.specs.declared.fault.TreeFault.TheVariants.{Memory};

    ghost from_gives = { λ _ fault. fault ≡ Memory };

    fn from(_error: AllocError) -> TreeFault {
        TreeFault::Memory
    }
}
