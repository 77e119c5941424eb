//! Where a line is at fault: the place at which it was last looked at, and for what. A reader stops at the first fault that it
//! meets, so the last look is the one that found it.

use bumpalo::Bump;
use std::alloc::{AllocError, Global};
use std::cell::Cell;

/// How many steps lead to the deepest value of a line, as `pools[0].groups[1][0][2]`, with one for the line itself.
const MAX_STEPS: usize = 7;

/// A step from an object or a list to a value in it.
#[derive(Clone, Copy)]
enum Step {
    Key(&'static str),
    Item(usize),
}

/// What is looked for.
#[derive(Clone, Copy)]
pub(super) enum Wanted {
    /// A value, whatever it is.
    Value,
    /// A whole number from the first to the second.
    Number(u64, u64),
    /// The same of numbers that may be negative.
    Integer(i64, i64),
    /// An object with no keys but these.
    Keys(&'static [&'static str]),
    /// What these words say.
    Words(&'static str),
}

#[derive(Clone, Copy)]
struct Look {
    /// The way from the line, which stands first, as an empty key.
    steps: [Step; MAX_STEPS],
    len: usize,
    wanted: Wanted,
}

/// The last look into a line.
#[derive(Drop)]
pub(super) struct Trail<'t> {
    /// Where the places of values lie.
    arena: &'t Bump,
    last: Cell<Look>,
    /// Whether there was no memory for a place.
    is_lost: Cell<bool>,
}

impl<'t> Trail<'t> {
    pub(super) fn new(arena: &'t Bump) -> Trail<'t> {
        Trail {
            arena,
            last: Cell::new(Look {
                steps: [Step::Key(""); MAX_STEPS],
                len: 0,
                wanted: Wanted::Value,
            }),
            is_lost: Cell::new(false),
        }
    }

    /// The place of the last look, and what isn't there.
    pub(super) fn words(&self, alloc: Global) -> Result<String, AllocError> {
        if self.is_lost.get() {
            return Err(AllocError);
        }
        let look = self.last.get();
        let way = way_of(alloc, &look.steps, look.len)?;
        match look.wanted {
            Wanted::Value => format!(in alloc; "{way} is absent"),
            Wanted::Number(low, high) => {
                format!(in alloc; "{way} is not a whole number from {low} to {high}")
            }
            Wanted::Integer(low, high) => {
                format!(in alloc; "{way} is not a whole number from {low} to {high}")
            }
            Wanted::Keys(keys) => format!(in alloc; "{way} has a key other than {keys:?}"),
            Wanted::Words(words) => format!(in alloc; "{way} is not {words}"),
        }
    }
}

/// The first `len` steps, as `pools[0].size`.
fn way_of(alloc: Global, steps: &[Step], len: usize) -> Result<String, AllocError> {
    let mut way = String::new(alloc);
    for step in steps.iter().take(len) {
        match step {
            Step::Key(key) => {
                if !way.is_empty() {
                    way.push('.')?;
                }
                way.push_str(key)?;
            }
            Step::Item(index) => {
                let item = format!(in alloc; "[{index}]")?;
                way.push_str(item.as_str())?;
            }
        }
    }
    Ok(way)
}

/// The place of a value in a line that is read for the place of its fault. Few are, so its functions are cold.
#[derive(Drop)]
pub(super) struct Place<'t> {
    trail: &'t Trail<'t>,
    /// How many steps it is from the line.
    depth: usize,
    /// The last of them.
    step: Step,
}

impl<'t> Trail<'t> {
    /// The place of the line itself.
    pub(super) fn line(&'t self) -> Option<&'t Place<'t>> {
        self.place(0, Step::Key(""))
    }

    /// A place, or none for which there is no memory.
    fn place(&'t self, depth: usize, step: Step) -> Option<&'t Place<'t>> {
        let place = Place {
            trail: self,
            depth,
            step,
        };
        match self.arena.try_alloc(place) {
            Ok(place) => Some(place),
            Err(_) => {
                self.is_lost.set(true);
                None
            }
        }
    }
}

impl<'t> Place<'t> {
    /// Keeps that this is looked for here. Each value that this one is in was looked at since any other beside it, so the steps
    /// before this one are those to it.
    #[cold]
    pub(super) fn look(&self, wanted: Wanted) {
        let mut look = self.trail.last.get();
        if let Some(step) = look.steps.get_mut(self.depth) {
            *step = self.step;
        }
        look.len = self.depth.saturating_add(1);
        look.wanted = wanted;
        self.trail.last.set(look);
    }

    /// Keeps that this is looked for at a key, and answers the place there.
    #[cold]
    pub(super) fn look_at(&self, key: &'static str, wanted: Wanted) -> Option<&'t Place<'t>> {
        self.look(wanted);
        let place = self.within(Step::Key(key))?;
        place.look(wanted);
        Some(place)
    }

    /// Keeps that an item of this number is looked for, and answers its place.
    #[cold]
    pub(super) fn look_for_item(&self, index: usize) -> Option<&'t Place<'t>> {
        // Whether there is one is looked for in the list.
        self.look(Wanted::Words("a list of the right length"));
        self.within(Step::Item(index))
    }

    fn within(&self, step: Step) -> Option<&'t Place<'t>> {
        self.trail.place(self.depth.saturating_add(1), step)
    }
}
