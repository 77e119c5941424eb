//! The name of the feed that an engine is over.
use std::marker::Brand;

/// Which feed it is. Whoever makes an engine picks it.
pub trait Naming {
    ghost use Rattle.logbook.specs.Pages.{Book};

    ghost feed: { Book };
}

// The mark at which a caller picks the feed.
impl Naming for Brand {
    ghost feed = { record { number = 0; log_name = 0; cells_name = 0 } };
}
