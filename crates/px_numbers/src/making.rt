//! Nodes that are made of their numbers.
ghost use Rattle.std.specs.Prelude.{◌≡◌, List, IfOk};
ghost use Rattle.px_table.specs.declared.entry.Entry.{Entry};
ghost use Rattle.px_table.specs.declared.node.Node.{Node};
ghost use Rattle.px_numbers.specs.Numbers.{IsStackAt, IsKeyOf};

use crate::nodes::NodeKey;
use crate::numbers::Numbers;
use px_base::{NoMemory, Sequence};
use px_table::{Entry, Node};
use std::alloc::Global;

/// Returns the entries of the stack, the top one first.
pub fn stack_at(alloc: Global, numbers: &Numbers, stack: u32) -> Result<Vec<Entry>, NoMemory>
    requires { (entries : List Entry) × IsStackAt numbers.now stack entries }
    ensures { IfOk result (λ made. (entries : List Entry) → IsStackAt numbers.now stack entries → made.items ≡ entries) }
{
    let mut entries = Vec::new(alloc);
    let mut rest = stack;
    while let Some(frame) = numbers.top(rest) {
        let entry = numbers.entry(frame.entry).try_copy()?;
        entries.push(entry)?;
        rest = frame.below;
    }
    Ok(entries)
}

/// Returns the node of the pair.
pub fn node_at(alloc: Global, numbers: &Numbers, key: NodeKey) -> Result<Node, NoMemory>
    requires { (node : Node) × IsKeyOf numbers.now key node }
    ensures { IfOk result (λ made. (node : Node) → IsKeyOf numbers.now key node → made ≡ node) }
{
    let model = numbers.model(alloc, key.model)?;
    let stack = stack_at(alloc, numbers, key.stack)?;
    Ok(Node::new(model, Sequence::from_vec(stack)))
}
