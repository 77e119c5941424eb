//! The rule over the two copies: the published entries are those of the told receipt, and each view is a front of them.
use crate::receipt::Receipt;
use crate::store::Store;
use atomic_table::{Join, Split};
use crossbeam_utils::rule::{Outcome, Protocol};

/// A view is a receipt of what was seen, if anything was.
pub type View = Option<Receipt>;

/// Both copies stand for one log, and each view is a front of it.
pub struct OneLog;

impl Protocol<Store, View> for OneLog {
    ghost use Rattle.std.specs.Prelude.{None};
    ghost use Rattle.pgp_feed.specs.OneLog.{IsOneLog};

    ghost holds = { IsOneLog };

    ghost first = { None };
}

/// What a step sees: the front that is told then.
pub struct Sees;

impl Outcome<Store, View> for Sees {
    ghost use Rattle.pgp_feed.specs.OneLog.{SeesTold};

    ghost then = { SeesTold };
}

/// What the writer saw, a reader has seen too.
pub struct Tells;

impl Split<View> for Tells {
    ghost left = { λ v. v };

    ghost right = { λ v. v };
}

impl Join<View> for Tells {
    ghost use Rattle.std.specs.Prelude.{None};

    ghost both = { λ v w. w };

    ghost spent = { None };
}
