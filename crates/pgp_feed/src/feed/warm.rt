//! The room in the writer's queue.
ghost use Rattle.std.specs.Prelude.{◌≡◌, [], ◌∷◌, drop, IfOk};
ghost use Rattle.pgp_feed.specs.declared.store.Operation.TheVariants.{Skip};

use super::LogWriter;
use crate::store::Operation;
use std::alloc::AllocError;
use std::sync::Wait;

/// A writer's queue held two operations at once. It gives no room back, so it has room from then on for as many as a publish
/// needs: the last that was shown, and the next.
#[derive(Drop)]
pub(super) struct Warm(());

impl Warm {
    // Of a writer whose queue holds two now.
    fn of(_writer: &LogWriter) -> Warm
        requires { drop _writer.now.behind _writer.now.log.items ≡ Skip ∷ Skip ∷ [] }
    {
        Warm(())
    }
}

/// The writer with two operations in its queue that do nothing. Refused, it is ended.
pub(super) fn warmed<R: Wait>(
    rt: &R,
    mut writer: LogWriter,
) -> Result<(LogWriter, Warm), AllocError>
    requires { drop writer.behind writer.log.items ≡ [] }
    ensures desk { IfOk result (λ made. made.0.desk ≡ writer.desk) }
    ensures queued { IfOk result (λ made. drop made.0.behind made.0.log.items ≡ Skip ∷ Skip ∷ []) }
{
    if writer.append(Operation::Skip).is_err() || writer.append(Operation::Skip).is_err() {
        writer.take(rt);
        return Err(AllocError);
    }
    let warm = Warm::of(&writer);
    Ok((writer, warm))
}
