//! Lists of numbers: moves between them, nodes that left, and refused memory.

use link_store::Links;
use std::process::Abort;

// Five and six on the first of two lists: the five moves to the other. The node of the six takes it off once.
#[test]
fn first_item_moves_and_last_is_unlinked(rt: HostRuntime) {
    let mut links = Links::new(rt.alloc(), 2).expect(&rt, "memory");
    links.reserve(2).expect(&rt, "memory");
    let _five = links.push_back(0, 5);
    let six = links.push_back(0, 6);
    assert!(&rt; links.move_front(0, 1), "the five moves");
    assert!(&rt; links.len(0) == 1, "the six stays");
    assert!(&rt; links.len(1) == 1, "the five came");
    assert!(&rt; links.unlink(six) == Some(6), "the node takes the six off");
    assert!(&rt; links.unlink(six) == None, "it is gone");
    assert!(&rt; links.pop_front(0) == None, "nothing is left");
    assert!(&rt;
        links.pop_front(1) == Some(5),
        "the five stands in the other list"
    );
}

// Five and six on the first of three lists: both are put before the third's, one after the other. A third time there is none.
#[test]
fn first_items_are_put_before_others(rt: HostRuntime) {
    let mut links = Links::new(rt.alloc(), 3).expect(&rt, "memory");
    links.reserve(2).expect(&rt, "memory");
    let _five = links.push_back(0, 5);
    let _six = links.push_back(0, 6);
    assert!(&rt; links.put_front(0, 2), "the five is put");
    assert!(&rt; links.put_front(0, 2), "the six is put");
    assert!(&rt; !links.put_front(0, 2), "none is left");
    assert!(&rt; links.len(0) == 0, "the first list is empty");
    assert!(&rt; links.pop_front(2) == Some(6), "the six stands first");
    assert!(&rt; links.pop_front(2) == Some(5), "the five stands behind it");
}

// The seven takes the slot that the six left: the node of the six doesn't name it.
#[test]
fn node_of_an_old_push_names_nothing(rt: HostRuntime) {
    let mut links = Links::new(rt.alloc(), 1).expect(&rt, "memory");
    links.reserve(2).expect(&rt, "memory");
    let _five = links.push_back(0, 5);
    let six = links.push_back(0, 6);
    assert!(&rt; links.unlink(six) == Some(6), "the six is there");
    let seven = links.push_back(0, 7);
    assert!(&rt; links.unlink(six) == None, "the six left");
    assert!(&rt; links.unlink(seven) == Some(7), "the seven stands");
}
