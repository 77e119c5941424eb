//! Where a value of a line is at fault, which contracts promise only as text.

use pgp_lines::{Format, LineReader};
use std::test::Fail;

/// Lines that are refused for the value at a key, each with the place of its fault.
static PLACES: [&str; 18] = [
    r#"{"op":"ask","pg":[1,0],"v":3} => v is not a version in which lines are read"#,
    r#"{"op":"locate","pool":1} => name is absent"#,
    r#"{"op":"inc","epoch":1,"weight":[[0,1],[2,-1]]} => weight[1][1] is not a whole number from 0 to 4294967295"#,
    r#"{"op":"inc","epoch":1,"temp":[[1,0,[null,"a"]]]} => temp[0][2][1] is not a whole number from 0 to 4095"#,
    r#"{"op":"inc","epoch":1,"crush":[{"id":0,"type":1,"alg":"uniform","items":[]}]} => crush[0].id is not a whole number from -65536 to -1"#,
    r#"{"op":"inc","epoch":1,"crush":[{"id":-1,"type":1,"alg":"list","items":[0,1],"weights":[1]}]} => crush[0].weights is not a list of the right length"#,
    r#"{"op":"inc","epoch":1,"pools":[{"id":2,"pg_num":1,"size":3,"min_size":2,"leaf":0,"kind":"erasure"}]} => pools[0].k is absent"#,
    r#"{"op":"inc","epoch":1,"pools":[{"id":2,"pg_num":1,"size":3,"min_size":2,"leaf":0,"kind":"mirrored"}]} => pools[0].kind is not a text that it can be"#,
    r#"{"op":"inc","epoch":1,"pools":[{"id":2,"pg_num":1,"size":3,"min_size":2,"leaf":0,"kind":"replicated","k":2}]} => pools[0] has a key other than ["id", "kind", "leaf", "min_size", "pg_num", "size"]"#,
    r#"{"op":"inc","epoch":1,"pools":[{"id":2,"pg_num":1,"size":3,"min_size":2,"leaf":0,"kind":"grouped","groups":[[[0],1]]}]} => pools is not what a line of its version can have"#,
    r#"{"op":"inc","v":2,"epoch":1,"pools":[{"id":2,"pg_num":1,"size":3,"min_size":2,"leaf":0,"kind":"grouped","groups":[[[0],1],[[1,16],1]]}]} => pools[0].groups[1][0][1] is not a whole number from 0 to 15"#,
    r#"{"op":"inc","v":2,"epoch":1,"pools":[{"id":2,"pg_num":1,"size":3,"min_size":2,"leaf":0,"kind":"grouped","groups":[[[0,1,2,3,4,5,6,7,8,9,10,11,12,13,14,15,0],1]]}]} => pools[0].groups[0][0] is not a list of the right length"#,
    r#"{"op":"trace","code":{"kind":"erasure","k":17},"epochs":[]} => code is not what a trace of its version can have"#,
    r#"{"op":"trace","code":{"kind":"replicated"},"epochs":[{"up":[0],"acting":[0],"size":3,"min_size":2,"up_from":1,"up_thru":1},{"up":[0],"acting":[0],"size":3,"min_size":4,"up_from":1,"up_thru":1}]} => epochs[1].min_size is not a whole number from 1 to 3"#,
    r#"{"op":"info","pg":[1,0],"from":[0,0],"stamp":1,"les":0,"history_les":0,"log_tail":[0,0],"last_update":[0],"complete":true} => last_update is not a list of the right length"#,
    r#"{"op":"info","pg":[1,0],"from":[0,0],"stamp":1,"les":0,"history_les":0,"log_tail":[0,0],"last_update":[0,0],"complete":1} => complete is not true or false"#,
    r#"{"op":"entries","pg":[1,0],"from":[0,0],"stamp":1,"log":[[1,1,"modify","a"],[1,2,"create","a"]]} => log[1][2] is not a text that it can be"#,
    r#"{"op":"entries","pg":[1,0],"from":[0,0],"stamp":1,"log":7} => log is not a list"#,
];

#[test]
fn the_place_of_a_fault_is_told(rt: HostRuntime) -> Result<(), Fail> {
    let mut reader = LineReader::new(rt.alloc(), Format::Two);
    for row in &PLACES {
        let (line, words) = row.split_once(" => ").ok_or("no words")?;
        let told = reader.place_of_fault(rt.alloc(), line.as_bytes())?;
        assert!(rt; told.as_str() == words, "{told}");
    }
    Ok(())
}
