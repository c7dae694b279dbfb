//! States of a search.
ghost use Rattle.std.specs.Prelude.{◌≡◌, IfOk};
ghost use Rattle.std.specs.Cmp.{partial_equiv_from_equiv};
ghost use Rattle.px_table.specs.NodeLaws.{node_eq-equivalence, node_hash-alike};
ghost use Rattle.px_table.specs.Nodes.{node_eq, node_hash_input};

use crate::entry::Entry;
use px_base::{NoMemory, Sequence, push};
use px_ops::Model;
use std::alloc::Global;
use std::hash::{Hash, Hasher};

/// A state of a search: a world model, and the entries that are pushed and not applied yet, the top one first.
///
/// How much room is left in the model doesn't count: nodes with the same atoms and the same stack are the same.
#[derive(Drop)]
pub struct Node {
    model: Model,
    stack: Sequence<Entry>,
}

impl std::marker::Model for Node {
    ghost use Rattle.px_table.specs.NodeValue.{NodeValue};

    ghost Value = { NodeValue };

    ghost view = { λ n. record { model = n.model.atoms; stack = n.stack } };
}

impl Node {
    /// Returns the node of a model and a stack. Does not allocate.
    pub fn new(model: Model, stack: Sequence<Entry>) -> Node
        ensures { result ≡ record { model = model.atoms; stack = stack } }
    {
        Node { model, stack }
    }

    /// Returns the model: what holds.
    pub fn model(&self) -> &Model
        ensures { result.now.atoms ≡ self.now.model }
    {
        &self.model
    }

    /// Returns the entries, the top one first.
    pub fn stack(&self) -> &[Entry]
        ensures { result.now ≡ self.now.stack }
    {
        self.stack.as_slice()
    }

    /// Returns an equal node, each part in memory of its own allocator.
    ///
    /// # Errors
    /// `NoMemory` where there is no memory for the copy.
    pub fn try_copy(&self) -> Result<Node, NoMemory>
        ensures { IfOk result (λ copy. copy ≡ self.now) }
    {
        let model = self.model.try_copy()?;
        let stack = copy_entries(&self.stack)?;
        Ok(Node { model, stack })
    }
}

impl PartialEq for Node {
    ghost eq = { node_eq };

    ghost laws = { partial_equiv_from_equiv node_eq-equivalence };

    fn eq(&self, other: &Node) -> bool {
        self.stack() == other.stack() && self.model().atoms() == other.model().atoms()
    }
}

impl Eq for Node {
    ghost laws = { node_eq-equivalence };
}

impl Hash for Node {
    ghost hash_input = { node_hash_input };

    ghost respects_eq = { node_hash-alike.fed };

    fn hash<H: Hasher>(&self, state: &mut H) {
        self.stack().hash(state);
        self.model().atoms().hash(state);
    }
}

/// Returns a copy of the entries, in the same order.
fn copy_entries(entries: &Sequence<Entry>) -> Result<Sequence<Entry>, NoMemory>
    ensures { IfOk result (λ copy. copy ≡ entries.now) }
{
    let mut copies = Vec::new(*entries.allocator());
    for entry in entries.as_slice() {
        push(&mut copies, entry.try_copy()?)?;
    }
    Ok(Sequence::from_vec(copies))
}
