//! The laws are calls.
use crate::{
    found_have_tables, runs_end, searches_end, trees_exist, weight_none_is_exactly_breadth,
};
use px_world::AtomWorld;
use std::rt::HostRuntime;

#[test]
fn laws_are_calls(_rt: HostRuntime) {
    searches_end();
    trees_exist();
    weight_none_is_exactly_breadth();
    found_have_tables();
    runs_end::<AtomWorld<'_>>();
}
