//! The laws are calls.
use crate::{
    asked_by_stop, ends_are_one, exhausted_with_all, fits_is_match, nodes_stand_once,
    tables_are_one, value_ends_are_one, weight_none_is_breadth, worked_ends, worked_values,
};
use std::rt::HostRuntime;

#[test]
fn laws_are_calls(_rt: HostRuntime) {
    ends_are_one();
    asked_by_stop();
    tables_are_one();
    worked_ends();
    value_ends_are_one();
    nodes_stand_once();
    exhausted_with_all();
    weight_none_is_breadth();
    fits_is_match();
    worked_values();
}
