//! A list space in linked cells: what is after a place, and before it.
use execlist::link::{LinkSpace, Place};
use execlist::space::ListSpace;
use std::test::Fail;

#[test]
fn a_list_runs_from_its_head_to_its_tail(rt: HostRuntime) -> Result<(), Fail> {
    let mut space: LinkSpace = LinkSpace::new(rt.alloc(), 1, 2)?;
    space.add_tail(0, 1);
    let next = [
        space.next_cell(Place::Head(0)),
        space.next_cell(Place::Node(1)),
        space.next_cell(Place::Tail(0)),
        space.next_cell(Place::Node(0)),
    ];
    let follow = [Some(Place::Node(1)), Some(Place::Tail(0)), None, None];
    assert_eq!(&rt; next, follow);
    let previous = [
        space.prev_cell(Place::Tail(0)),
        space.prev_cell(Place::Node(1)),
        space.prev_cell(Place::Head(0)),
        space.prev_cell(Place::Node(0)),
    ];
    let precede = [Some(Place::Node(1)), Some(Place::Head(0)), None, None];
    assert_eq!(&rt; previous, precede);
    Ok(())
}
