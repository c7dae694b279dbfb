//! The order in which places are picked, worked by hand, and calls of the laws.
use crate::{
    Agenda, Search, agenda_goes_on, all_is_found, asked_by_run, blind_ends, blind_is_breadth,
    blind_needs_no_agenda, exhausted_in_all, nodes_stand_once, one_stop, runs_are_one, value_of,
    worked_order,
};
use px_base::NoMemory;
use std::rt::HostRuntime;

/// From place 0 a search finds places 1, 2 and 3, whose nodes lack 2, 1 and 1, and from place 3 place 4, whose node lacks nothing.
#[test]
fn picks_by_value_and_then_by_place(rt: HostRuntime) -> Result<(), NoMemory> {
    let mut agenda = Agenda::new(rt.alloc());
    agenda.add(value_of(0, 2, 2).expect(&rt, "a value"), 0)?;
    assert!(&rt; agenda.pick() == Some((4, 0)));
    agenda.add(value_of(1, 2, 2).expect(&rt, "a value"), 1)?;
    agenda.add(value_of(1, 1, 2).expect(&rt, "a value"), 3)?;
    agenda.add(value_of(1, 1, 2).expect(&rt, "a value"), 2)?;
    assert!(&rt; agenda.pick() == Some((3, 2)));
    assert!(&rt; agenda.pick() == Some((3, 3)));
    agenda.add(value_of(2, 0, 2).expect(&rt, "a value"), 4)?;
    assert!(&rt; agenda.pick() == Some((2, 4)));
    assert!(&rt; agenda.pick() == Some((5, 1)));
    assert!(&rt; agenda.pick().is_none());
    Ok(())
}

#[test]
fn at_weight_0_places_are_picked_as_they_were_found(rt: HostRuntime) -> Result<(), NoMemory> {
    let mut agenda = Agenda::new(rt.alloc());
    agenda.add(value_of(1, 7, 0).expect(&rt, "a value"), 1)?;
    agenda.add(value_of(2, 0, 0).expect(&rt, "a value"), 3)?;
    agenda.add(value_of(1, 9, 0).expect(&rt, "a value"), 2)?;
    assert!(&rt; agenda.pick() == Some((1, 1)));
    assert!(&rt; agenda.pick() == Some((1, 2)));
    assert!(&rt; agenda.pick() == Some((2, 3)));
    Ok(())
}

#[test]
fn a_value_of_more_than_64_bits_is_none(rt: HostRuntime) {
    assert!(&rt; value_of(u64::MAX, 1, 0) == Some(u64::MAX));
    assert!(&rt; value_of(u64::MAX, 1, 1) == None);
    assert!(&rt; value_of(0, u64::MAX, 2) == None);
}

/// The search that is worked by hand.
struct FiveNodes;

impl Search for FiveNodes {
    ghost use Rattle.px_order.specs.WorkedOrder.{five_nodes, to_reach};

    type Node = u32;

    type Move = u32;

    type Question = u32;

    ghost space = { five_nodes };

    ghost aim = { to_reach 4 5 };
}

#[test]
fn laws_are_calls(_rt: HostRuntime) {
    runs_are_one::<FiveNodes>();
    nodes_stand_once::<FiveNodes>();
    all_is_found::<FiveNodes>();
    blind_is_breadth::<FiveNodes>();
    one_stop::<FiveNodes>();
    exhausted_in_all::<FiveNodes>();
    blind_ends::<FiveNodes>();
    agenda_goes_on::<FiveNodes>();
    asked_by_run::<FiveNodes>();
    blind_needs_no_agenda::<FiveNodes>();
    worked_order();
}
