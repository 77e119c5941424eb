//! That a call which lacked memory has changed no log, and can be made again. Under `rt try --test --fail-alloc N` the Nth
//! allocation is refused; in the gate none is.
use crate::count::is_count;
use crate::engine::clients::is_placed;
use crate::engine::desk::Desk;
use crate::engine::lines::TO_SERVE;
use crate::engine::opened::{Host, Trial, tried};
use pgp_engine::{Client, Naming};

/// Submits each entry and asks about the group, has the shard read that the asks passed by, and places an object by the whole log.
pub fn call_again<J: Naming>(rt: &impl Host, desk: &Desk<J>, clients: Vec<Client<J>>) {
    let mut clients = clients;
    let whole = TO_SERVE.len();
    for taken in 0..TO_SERVE.len() {
        is_count(rt, desk.put(rt, TO_SERVE[taken]), taken + 1);
        is_count(rt, desk.ask(rt), taken + 1);
    }
    assert!(rt; desk.read_on(rt, 0, 1) >= 1);
    is_count(rt, desk.read_on(rt, 0, whole), whole);
    let mut client = clients.pop().expect(rt, "a client");
    is_placed(rt, &mut client, whole);
}

#[test]
fn each_call_can_be_made_again(rt: HostRuntime) {
    tried(&rt, &Trial::EachCallAgain);
}
