// The search on the two grounds, and a queue that goes round its places.
use crate::grounds::{OneWay, Slotted};
use crate::mesh::is_mesh;
use search::find::find_path;
use search::links::Ends;
use search::net::Net;
use search::queue::Queue;

// Two links join 0 and 1, and the one with slots is taken; 3 is cut off by a link without slots.
#[test]
fn a_link_without_slots_is_shut(rt: HostRuntime) {
    let links = [(0, 1), (1, 0), (1, 2), (3, 2)].map(Ends::from);
    let slots = [0u32, 2, 4, 0];
    assert!(rt; is_mesh(&links));
    let net = Net::of(&links);
    let ground = Slotted {
        net: &net,
        slots: &slots,
    };
    let mut path = [99u16; 64];
    let mut side = [false; 64];
    assert!(rt; find_path(&ground, 0, 2, &mut path, &mut side) == Some(2));
    assert!(rt; path[0] == 1 && path[1] == 2 && path[2] == 99 && !side[0]);
    assert!(rt; find_path(&ground, 0, 3, &mut path, &mut side) == None);
    assert!(rt; side[0] && side[1] && side[2] && !side[3] && path[0] == 1);
    assert!(rt; find_path(&ground, 3, 3, &mut path, &mut side) == Some(0));
    assert!(rt; path[0] == 1);
}

// Round a ring of four one-way links the path backwards takes the long way.
#[test]
fn a_one_way_ring_is_walked_in_its_direction(rt: HostRuntime) {
    let links = [(0, 1), (1, 2), (2, 3), (3, 0)].map(Ends::from);
    assert!(rt; is_mesh(&links));
    let net = Net::of(&links);
    let ground = OneWay { net: &net };
    let mut path = [99u16; 64];
    let mut side = [false; 64];
    assert!(rt; find_path(&ground, 0, 1, &mut path, &mut side) == Some(1));
    assert!(rt; path[0] == 0);
    assert!(rt; find_path(&ground, 1, 0, &mut path, &mut side) == Some(3));
    assert!(rt; path[0] == 1 && path[1] == 2 && path[2] == 3 && path[3] == 99);
    assert!(rt; find_path(&ground, 0, 5, &mut path, &mut side) == None);
    assert!(rt; side[0] && side[3] && !side[5]);
}

// A full queue refuses, and its items come out in the order they went in, also past the end of its places.
#[test]
fn a_queue_goes_round(rt: HostRuntime) {
    let mut places = [0u8; 3];
    let mut queue = Queue::new(&mut places);
    assert!(rt; queue.pop() == None && queue.front() == None);
    assert!(rt; queue.push(1) && queue.push(2) && queue.push(3) && !queue.push(4));
    assert!(rt; queue.front() == Some(1) && queue.pop() == Some(1));
    assert!(rt; queue.push(5) && !queue.push(6));
    assert!(rt; queue.pop() == Some(2) && queue.pop() == Some(3));
    assert!(rt; queue.push(7) && queue.pop() == Some(5) && queue.pop() == Some(7));
    assert!(rt; queue.pop() == None);
}
