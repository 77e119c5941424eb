//! A log without reports that no answer needs any more.

ghost use Rattle.std.specs.Prelude.{◌≡◌, ◌++◌, ◌∷◌, [], true, map, if◌then◌else◌, IfOk, OnOk};
ghost use Rattle.std.specs.Arc.{arc_value};
ghost use Rattle.pgp_log.specs.Log.{is_legal};
ghost use Rattle.pgp_compact.specs.Compacted.{are_needed_in, compacted};

use super::later::Later;
use super::whole::Whole;
use pgp_ids::Entry;
use std::alloc::{AllocError, Global};
use std::sync::Arc;

/// The entries of a legal log that stay when it is compacted, in their order.
pub fn compact(alloc: Global, entries: &[Arc<Entry>]) -> Result<Vec<Arc<Entry>>, AllocError>
    requires { is_legal (map arc_value entries.now) ≡ true }
    ensures { IfOk result (λ kept. map arc_value kept.items ≡ compacted (map arc_value entries.now)) }
{
    let choices = needed(alloc, entries)?;
    let mut kept = Vec::new(alloc);
    for (place, entry) in entries.iter().enumerate() {
        keep(&mut kept, entry, choices[place])?;
    }
    Ok(kept)
}

/// Of each entry of a legal log whether it stays when the log is compacted.
///
/// It goes over the log from its end, and looks at each entry of a report once.
pub fn needed(alloc: Global, entries: &[Arc<Entry>]) -> Result<Vec<bool>, AllocError>
    requires { is_legal (map arc_value entries.now) ≡ true }
    ensures { IfOk result (λ choices. choices.items ≡ are_needed_in (map arc_value entries.now)) }
{
    let whole = Whole::of(alloc, entries)?;
    let mut later = Later::new(alloc, whole.last_cleans(alloc, entries)?);
    let mut choices = Vec::new(alloc);
    for step in 0..entries.len() {
        let entry = &entries[entries.len() - 1 - step];
        choices.push(whole.needs(&mut later, entry)?)?;
    }
    choices.reverse();
    Ok(choices)
}

/// Adds the entry to those that are kept, if it is needed.
fn keep(kept: &mut Vec<Arc<Entry>>, entry: &Arc<Entry>, needed: bool) -> Result<(), AllocError>
    ensures { OnOk result (map arc_value kept.new.items
        ≡ map arc_value kept.old.items ++ (if needed then arc_value entry.now ∷ [] else [])) }
{
    if needed {
        kept.push(Arc::try_clone(entry)?)?;
    }
    Ok(())
}
