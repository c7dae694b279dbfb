//! The laws are calls.
use px_duo::{
    duo_traces_are_one, duo_traces_exist, duos_stay_ready, each_is_alone, slips_have_causes,
    spared_are_unhindered, spared_reach_goal,
};
use px_general::{general_is_one, generals_exist, worked_general};
use px_match::{danger_kernels, danger_sensed, sensed_is_one};
use px_planex::{
    acts_and_goes_on, danger_runs, events_take_places, goal_is_reached, guard_never, runs_are_one,
    runs_are_traces, traces_are_one, traces_exist, turns_are_few,
};
use px_table::{
    entries_are_ordered, kernels_are_marks, marks_are_compared, moves_are_compared,
    nodes_are_compared, rows_meet_preconditions, supports_carry, supports_refuse,
    tables_are_decided,
};
use px_world::AtomWorld;
use std::rt::HostRuntime;

#[test]
fn laws_are_calls(_rt: HostRuntime) {
    entries_are_ordered();
    kernels_are_marks();
    marks_are_compared();
    moves_are_compared();
    nodes_are_compared();
    rows_meet_preconditions();
    supports_carry();
    supports_refuse();
    tables_are_decided();
    sensed_is_one();
    danger_kernels();
    danger_sensed();
    general_is_one();
    generals_exist();
    worked_general();
    traces_are_one::<AtomWorld<'_>>();
    traces_exist::<AtomWorld<'_>>();
    events_take_places::<AtomWorld<'_>>();
    acts_and_goes_on::<AtomWorld<'_>>();
    goal_is_reached::<AtomWorld<'_>>();
    guard_never();
    runs_are_one::<AtomWorld<'_>>();
    runs_are_traces::<AtomWorld<'_>>();
    turns_are_few::<AtomWorld<'_>>();
    danger_runs();
    duo_traces_are_one::<AtomWorld<'_>>();
    duo_traces_exist::<AtomWorld<'_>>();
    duos_stay_ready::<AtomWorld<'_>>();
    each_is_alone::<AtomWorld<'_>>();
    slips_have_causes::<AtomWorld<'_>>();
    spared_are_unhindered::<AtomWorld<'_>>();
    spared_reach_goal::<AtomWorld<'_>>();
}
