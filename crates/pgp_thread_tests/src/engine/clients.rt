//! Where clients find objects.
use crate::count::is_count;
use crate::engine::desk::Desk;
use crate::engine::lines::{EMPTY_0, MAP, group};
use crate::engine::opened::{Host, Trial, tried};
use pgp_engine::{Client, LocateFault, Naming, Place};
use pgp_ids::ObjectName;

// Where the client finds an object of the group's pool.
fn located<J: Naming>(rt: &impl Host, client: &mut Client<J>) -> Result<Place, LocateFault> {
    let name = match ObjectName::new(rt.alloc(), "a") {
        Ok(name) => name,
        Err(_) => ObjectName::new(rt.alloc(), "a").ok().expect(rt, "memory"),
    };
    client.locate(group().pool, &name.expect(rt, "a name"))
}

/// The client places the object by a front of this many entries. It is asked a second time where it is out of memory.
pub fn is_placed<J: Naming>(rt: &impl Host, client: &mut Client<J>, count: usize) {
    let place = match located(rt, client) {
        Err(LocateFault::Memory) => located(rt, client),
        located => located,
    };
    is_count(rt, place.ok().expect(rt, "a place").at.len(), count);
}

// The client is lent no copy of the log.
fn is_lost<J: Naming>(rt: &impl Host, client: &mut Client<J>) {
    let place = located(rt, client);
    assert!(rt;
        matches!(place, Err(LocateFault::NoReader)),
        "no copy is lent"
    );
}

// One client has read the map when the engine ends, the other knows of it alone. An info came after it. The first places by
// what it has read, until it learns of the info.
pub fn outlive<J: Naming>(rt: &impl Host, desk: Desk<J>, clients: Vec<Client<J>>) {
    let mut clients = clients;
    let mut one = clients.pop().expect(rt, "a client");
    let mut other = clients.pop().expect(rt, "two clients");
    desk.put(rt, MAP);
    is_placed(rt, &mut one, 1);
    is_count(rt, other.newest().len(), 1);
    desk.put(rt, EMPTY_0);
    let told = desk.engine.told(rt);
    desk.end(rt);
    is_placed(rt, &mut one, 1);
    is_lost(rt, &mut other);
    one.learn(&told);
    is_lost(rt, &mut one);
    is_count(rt, one.newest().len(), 2);
}

#[test]
fn a_client_places_by_the_front_that_it_knows(rt: HostRuntime) {
    tried(&rt, &Trial::Outlived);
}
