//! A script has the same answers over an engine as on one thread, whatever the size of the engine.

use crate::fakes::NEVER;
use crate::program::run_with;
use pgp_cli::DONE;
use std::test::Fail;

/// Each op, and lines that are refused; then a close, and what comes after it.
const SCRIPT: &[u8] = br#"{"op":"ask","pg":[1,0]}
{"op":"inc","epoch":1,"up":[0,1,2,3],"weight":[[3,0]],"crush":[{"id":-1,"type":1,"alg":"uniform","items":[0,1,2,3]}],"pools":[{"id":1,"pg_num":8,"kind":"replicated","size":3,"min_size":2,"leaf":0}],"temp":[[1,0,[0,1,2]]]}
{"op":"inc","epoch":1}
{"op":"info","pg":[1,0],"from":[0,0],"stamp":1,"les":0,"history_les":0,"last_update":[1,2],"log_tail":[0,0],"complete":true}
{"op":"info","pg":[1,0],"from":[1,0],"stamp":1,"les":0,"history_les":0,"last_update":[1,1],"log_tail":[0,0],"complete":true}
{"op":"info","pg":[1,0],"from":[2,0],"stamp":1,"les":0,"history_les":0,"last_update":[0,0],"log_tail":[0,0],"complete":true}
{"op":"entries","pg":[1,0],"from":[0,0],"stamp":1,"log":[[1,1,"modify","a"],[1,2,"modify","b"]]}
{"op":"ask","pg":[1,0]}
{"op":"locate","pool":1,"name":"a"}
{"op":"inc","epoch":2,"up_thru":[[0,1]]}
{"op":"ask","pg":[1,0]}
{"op":"ask","pg":[1,3]}
{"op":"ask","pg":[1,8]}
{"op":"locate","pool":9,"name":"a"}
{"op":"inc","epoch":3,"down":[2]}
{"op":"locate","pool":1,"name":"b"}
{"op":"trace","code":{"kind":"replicated"},"epochs":[{"up":[0,1],"acting":[0,1],"size":2,"min_size":1,"up_from":1,"up_thru":0},{"up":[0,1],"acting":[0,1],"size":2,"min_size":1,"up_from":1,"up_thru":1},{"up":[0],"acting":[0],"size":2,"min_size":1,"up_from":1,"up_thru":1}]}
{"op":"ask"
{"op":"peer"}
{"op":"ask","pg":[1,5]}
{"op":"close"}
{"op":"inc","epoch":4}
{"op":"close"}
{"op":"ask","pg":[1,7]}
{"op":"locate","pool":1,"name":"c"}
"#;

/// Runs over the smallest engine, one of several shards and workers, and the largest.
static RUNS: [&str; 3] = [
    "run --shards 1 --workers 1",
    "run --shards 3 --workers 2",
    "run --shards 64 --workers 64",
];

#[test]
fn lines_after_a_close_are_answered(rt: HostRuntime) -> Result<(), Fail> {
    let alone = run_with(&rt, "run", SCRIPT, NEVER, NEVER)?;
    assert!(rt; alone.status == DONE);
    for words in &RUNS {
        assert!(rt;
            run_with(&rt, words, SCRIPT, NEVER, NEVER)? == alone,
            "{words}"
        );
    }
    Ok(())
}
