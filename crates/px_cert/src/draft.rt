//! What the lines of a certificate so far say, and which line is due.
ghost use Rattle.std.specs.Prelude.{◌≡◌};
ghost use Rattle.px_terms.specs.Operators.{no_schema};
ghost use Rattle.px_cert.specs.Drafts.{no_lines};

use px_base::Sequence;
use px_table::Row;
use px_terms::{Atom, ClauseArena, OpInst, Schema};
use std::alloc::Global;

/// Which line has to come next. A number says how many lines of the kind come after it.
#[derive(Clone, Copy, PartialEq, Eq, Debug)]
pub enum Due {
    /// `planex certificate 1`.
    Heading,
    /// The objects.
    Objects,
    /// The predicates.
    Predicates,
    /// The number of axioms.
    Axioms,
    /// An axiom.
    Axiom(u32),
    /// The number of operators.
    Operators,
    /// The parameters of an operator.
    Operator(u32),
    /// Its precondition.
    Pre(u32),
    /// Its delete list.
    Delete(u32),
    /// Its add list.
    Add(u32),
    /// The parameters of the table.
    Table,
    /// The goal.
    Goal,
    /// The number of steps.
    Steps,
    /// A step; after the steps so many rows come.
    Step(u32, u32),
    /// A row.
    Row(u32),
    /// No line.
    Nothing,
}

/// What the lines so far say.
#[derive(Drop)]
pub struct Draft {
    /// The line that has to come next.
    pub due: Due,
    /// The sort of each object.
    pub objects: Sequence<u32>,
    /// The number of arguments of each predicate.
    pub arities: Sequence<u8>,
    /// The axioms.
    pub axioms: ClauseArena,
    /// The operators that are whole.
    pub schemas: Sequence<Schema>,
    /// The operator that isn't whole yet.
    pub schema: Schema,
    /// The sort of each parameter of the table.
    pub params: Sequence<u32>,
    /// How many variables the goal has.
    pub goal_variable_count: u32,
    /// The goal.
    pub goal: Sequence<Atom>,
    /// The steps.
    pub steps: Sequence<OpInst>,
    /// The rows.
    pub rows: Sequence<Row>,
}

/// Returns an operator without parameters and atoms.
pub(crate) fn empty_schema(alloc: Global) -> Schema
    ensures { result ≡ no_schema }
{
    Schema {
        op: 0,
        params: 0,
        pre: Sequence::from_vec(Vec::new(alloc)),
        del: Sequence::from_vec(Vec::new(alloc)),
        add: Sequence::from_vec(Vec::new(alloc)),
        param_sorts: Sequence::from_vec(Vec::new(alloc)),
    }
}

/// Returns what no lines say.
pub(crate) fn no_lines(alloc: Global) -> Draft
    ensures { result ≡ no_lines }
{
    Draft {
        due: Due::Heading,
        objects: Sequence::from_vec(Vec::new(alloc)),
        arities: Sequence::from_vec(Vec::new(alloc)),
        axioms: ClauseArena::new(alloc),
        schemas: Sequence::from_vec(Vec::new(alloc)),
        schema: empty_schema(alloc),
        params: Sequence::from_vec(Vec::new(alloc)),
        goal_variable_count: 0,
        goal: Sequence::from_vec(Vec::new(alloc)),
        steps: Sequence::from_vec(Vec::new(alloc)),
        rows: Sequence::from_vec(Vec::new(alloc)),
    }
}
