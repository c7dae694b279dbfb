//! Numbers of small things. What is kept is owned where nothing else happens, since each way out of there is proved at length.
use crate::{NodeKey, NodeSet, Numbers};
use px_base::NoMemory;
use px_ops::Model;
use px_table::Entry;
use px_terms::{Atom, OpInst};
use std::alloc::Global;
use std::process::Abort;
use std::rt::HostRuntime;

/// Returns the model of an atom without arguments.
fn model_of_one(alloc: Global, pred: u32, rt: &impl Abort) -> Result<Model, NoMemory> {
    let atom = Atom::new(pred, &[]).expect(rt, "no argument");
    let mut model = Model::new(alloc);
    model.insert(atom)?;
    Ok(model)
}

/// Returns the number of that model.
fn number_of_one(
    alloc: Global,
    numbers: &mut Numbers,
    pred: u32,
    rt: &impl Abort,
) -> Result<u32, NoMemory> {
    let model = model_of_one(alloc, pred, rt)?;
    numbers.model_number(alloc, &model)
}

/// Returns whether two models have numbers of their own, and the first has the same again.
fn are_models_numbered(
    alloc: Global,
    numbers: &mut Numbers,
    rt: &impl Abort,
) -> Result<bool, NoMemory> {
    let first = number_of_one(alloc, numbers, 5, rt)?;
    let second = number_of_one(alloc, numbers, 3, rt)?;
    let again = number_of_one(alloc, numbers, 5, rt)?;
    Ok(first == 0 && second == 1 && again == 0)
}

#[test]
fn a_model_is_numbered_once(rt: HostRuntime) {
    let mut numbers = Numbers::new(rt.alloc());
    let found = are_models_numbered(rt.alloc(), &mut numbers, &rt);
    assert!(&rt; matches!(found, Ok(true)));
}

/// Returns how many atoms a model of one atom has when it comes back.
fn atoms_again(alloc: Global, numbers: &mut Numbers, rt: &impl Abort) -> Result<usize, NoMemory> {
    let model = model_of_one(alloc, 3, rt)?;
    let number = numbers.model_number(alloc, &model)?;
    let again = numbers.model(alloc, number)?;
    Ok(again.atoms().len())
}

#[test]
fn a_model_comes_back(rt: HostRuntime) {
    let mut numbers = Numbers::new(rt.alloc());
    let found = atoms_again(rt.alloc(), &mut numbers, &rt);
    assert!(&rt; matches!(found, Ok(1)));
}

/// Returns the number of the entry of an operator without parameters.
fn entry_number(numbers: &mut Numbers, op: u32, rt: &impl Abort) -> Result<u32, NoMemory> {
    let inst = OpInst::new(op, &[]).expect(rt, "no argument");
    numbers.entry_number(Entry::Op(inst))
}

/// Returns whether two entries have numbers of their own, the first the same again, and a stack the same twice.
fn are_stacks_numbered(numbers: &mut Numbers, rt: &impl Abort) -> Result<bool, NoMemory> {
    let first = entry_number(numbers, 7, rt)?;
    let second = entry_number(numbers, 5, rt)?;
    let again = entry_number(numbers, 7, rt)?;
    let stack = numbers.pushed(second, 0)?;
    let stack_again = numbers.pushed(second, 0)?;
    Ok(first == 0 && second == 1 && again == 0 && stack == 1 && stack_again == 1)
}

#[test]
fn entries_and_stacks_are_numbered_once(rt: HostRuntime) {
    let mut numbers = Numbers::new(rt.alloc());
    let found = are_stacks_numbered(&mut numbers, &rt);
    assert!(&rt; matches!(found, Ok(true)));
}

/// Returns whether two nodes have places of their own, and the first has the same again.
fn are_nodes_placed(nodes: &mut NodeSet) -> Result<bool, NoMemory> {
    let first = nodes.intern(NodeKey { model: 0, stack: 0 })?;
    let second = nodes.intern(NodeKey { model: 0, stack: 1 })?;
    let again = nodes.intern(NodeKey { model: 0, stack: 0 })?;
    Ok(first == 0 && second == 1 && again == 0)
}

#[test]
fn a_node_is_kept_once(rt: HostRuntime) {
    let mut nodes = NodeSet::new(rt.alloc());
    let found = are_nodes_placed(&mut nodes);
    assert!(&rt; matches!(found, Ok(true)));
}
