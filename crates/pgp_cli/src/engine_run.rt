//! A script over an engine: [`run_engine`] submits and asks line by line on the caller's thread, while workers have the shards
//! read what was submitted.
//!
//! Each line is answered by a front of the engine's one log that holds all that the lines before it were told of. The bytes
//! don't show how many shards and workers there are.
ghost use Rattle.std.specs.Prelude.{◌≡◌, ◌+◌, ◌⊎◌, ◌≤◌, [], false, true, length, All, IfErr, OnOk};
ghost use Rattle.pgp_core.specs.Account.{account};
ghost use Rattle.pgp_cli.specs.Status.{HasRun};
ghost use Rattle.pgp_core.specs.Run.{AllAnswered, Stopped, script_bounds};
ghost use Rattle.pgp_feed.specs.Feeds.{told_of};
ghost use Rattle.pgp_feed.specs.Receipts.{entries_of, feed_of};
ghost use Rattle.pgp_feed.specs.Taps.{last_of};

mod answerer;
mod workers;

use answerer::EngineAnswerer;
use pgp_core::{SCRIPT_BOUNDS, ScriptFault, Sink, Source, answer_script};
use pgp_engine::{Client, Engine, Naming};
use pgp_feed::{Feed, Tap};
use pgp_lines::Format;
use std::alloc::Global;
use std::marker::Brand;
use std::sync::Wait;
use std::thread;
use std::thread::Threads;
use workers::{all_started, close};

/// Answers the script that the reader gives over an engine of this many shards and workers: at most a million lines and 4 GiB, with
/// lines up to this version.
///
/// The workers have threads of their own; the lines are answered on this one. At the end, and after a fault, the log is closed
/// if the script didn't close it, which has no answer, and the workers are waited for. A fault says what it leaves:
/// [`ScriptFault::Read`] and [`ScriptFault::Write`] as at [`pgp_core::run_script`]. [`ScriptFault::Gone`]: there is no engine with
/// all of its workers, and nothing was read; or no copy of its log was lent for a line, the lines before it are answered, and
/// no line from there on.
pub fn run_engine<R: Source, W: Sink, T: Threads + Wait + Sync>(
    rt: &T,
    alloc: Global,
    format: Format,
    reader: &mut R,
    writer: &mut W,
    shards: usize,
    workers: usize,
) -> Result<(), ScriptFault>
    requires shards { (1 ≤ shards) × (shards ≤ 64) }
    requires workers { (1 ≤ workers) × (workers ≤ 64) }
    ensures ok { OnOk result (AllAnswered false format script_bounds
        (account (R.state reader.old) (W.state writer.old))
        (account (R.state reader.new) (W.state writer.new))) }
    ensures err { IfErr result (λ fault. ((fault ≡ ScriptFault.Gone) × (reader.new ≡ reader.old) × (writer.new ≡ writer.old))
        ⊎ Stopped false format script_bounds
        (account (R.state reader.old) (W.state writer.old))
        (account (R.state reader.new) (W.state writer.new)) fault) }
    ensures passed_on { OnOk result ((W.state writer.new).passed_on ≡ true) }
{
    let Ok((feed, taps)) = Feed::make(rt, alloc, shards + 2) else {
        return Err(ScriptFault::Gone);
    };
    run_over::<Brand, R, W, T>(
        rt,
        alloc,
        format,
        (feed, taps),
        reader,
        writer,
        shards,
        workers,
    )
}

/// The same over a feed that was just made.
fn run_over<J: Naming + Send + Sync, R: Source, W: Sink, T: Threads + Wait + Sync>(
    rt: &T,
    alloc: Global,
    format: Format,
    made: (Feed, Vec<Tap>),
    reader: &mut R,
    writer: &mut W,
    shards: usize,
    workers: usize,
) -> Result<(), ScriptFault>
    requires named { feed_of (told_of made.0) ≡ J.feed }
    requires empty { entries_of (told_of made.0) ≡ [] }
    requires count { length made.1.items ≡ shards + 2 }
    requires each { All (λ tap. last_of tap ≡ told_of made.0) made.1.items }
    requires shards { (1 ≤ shards) × (shards ≤ 64) }
    requires workers { (1 ≤ workers) × (workers ≤ 64) }
    ensures { HasRun R.state W.state format result reader.old writer.old reader.new writer.new }
{
    let (feed, taps) = made;
    let Ok((engine, mut clients)) = Engine::<J>::make(rt, alloc, feed, taps, shards, workers) else {
        return Err(ScriptFault::Gone);
    };
    let client = clients.pop().unwrap();
    let (_, _, outcome) = run_among_workers(
        rt, alloc, format, &engine, client, reader, writer, workers,
    );
    engine.give_up_at_exit(rt);
    outcome
}

/// Starts the workers, answers the script, closes the log, and waits for the workers to end.
///
/// A thread could have written to whatever the scope's closure borrows from outside, so the closure takes the reader and the
/// writer, and gives them back.
fn run_among_workers<'r, 'w, J: Naming + Send + Sync, R: Source, W: Sink, T: Threads + Wait + Sync>(
    rt: &T,
    alloc: Global,
    format: Format,
    engine: &Engine<J>,
    client: Client<J>,
    reader: &'r mut R,
    writer: &'w mut W,
    workers: usize,
) -> (&'r mut R, &'w mut W, Result<(), ScriptFault>)
    requires { workers ≤ engine.now.workers }
    ensures reader { result.0.ghost_name ≡ reader.entry.ghost_name }
    ensures writer { result.1.ghost_name ≡ writer.entry.ghost_name }
    ensures run { HasRun R.state W.state format result.2 reader.entry.now writer.entry.now result.0.now result.1.now }
{
    thread::scope(
        thread::scope_env(),
        rt,
        move |scope| -> (&mut R, &mut W, Result<(), ScriptFault>)
            requires { workers ≤ engine.now.workers }
            ensures reader { result.0.ghost_name ≡ reader.entry.ghost_name }
            ensures writer { result.1.ghost_name ≡ writer.entry.ghost_name }
            ensures run { HasRun R.state W.state format result.2 reader.entry.now writer.entry.now result.0.now result.1.now }
        {
            if !all_started(rt, scope, engine, workers) {
                close(rt, engine);
                return (reader, writer, Err(ScriptFault::Gone));
            }
            let outcome = answer_by(rt, alloc, format, engine, client, reader, writer);
            close(rt, engine);
            (reader, writer, outcome)
        },
    )
}

/// Answers the script by the engine, on this thread.
fn answer_by<J: Naming, R: Source, W: Sink, T: Wait>(
    rt: &T,
    alloc: Global,
    format: Format,
    engine: &Engine<J>,
    client: Client<J>,
    reader: &mut R,
    writer: &mut W,
) -> Result<(), ScriptFault>
    ensures { HasRun R.state W.state format result reader.old writer.old reader.new writer.new }
{
    let mut answerer = EngineAnswerer::new(rt, engine, client);
    answer_script(alloc, format, &mut answerer, reader, writer, SCRIPT_BOUNDS)
}
