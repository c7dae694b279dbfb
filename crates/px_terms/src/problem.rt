//! Operators and problems.
ghost use Rattle.std.specs.Prelude.{◌≡◌, IfOk, replicate};
ghost use Rattle.px_terms.specs.Problems.{problem_without_sorts, schema_without_sorts};

use crate::atom::Atom;
use crate::clause::ClauseArena;
use px_base::{NoMemory, Sequence};
use std::alloc::Global;

/// An operator schema (Fikes and Nilsson 1971). Its variables are its parameters, numbered from 0.
#[derive(Drop)]
pub struct Schema {
    /// The operator's number, which is its place in the problem's list.
    pub op: u32,
    /// How many parameters it has, at most eight.
    pub params: u32,
    /// The precondition: what has to be so before.
    pub pre: Sequence<Atom>,
    /// The delete list: patterns of what may no longer be so afterwards. The wild card may stand only here.
    pub del: Sequence<Atom>,
    /// The add list: what is so afterwards.
    pub add: Sequence<Atom>,
    /// The sort of each parameter, as many as there are parameters; 0 is no sort.
    pub param_sorts: Sequence<u32>,
}

impl Schema {
    /// Returns the operator of that number none of whose parameters has a sort.
    ///
    /// # Errors
    /// `NoMemory` where there is no memory for the lists.
    pub fn without_sorts(
        alloc: Global,
        op: u32,
        params: u32,
        pre: &[Atom],
        del: &[Atom],
        add: &[Atom],
    ) -> Result<Schema, NoMemory>
        ensures { IfOk result (λ schema. schema ≡ schema_without_sorts op params pre.now del.now add.now) }
    {
        Ok(Schema {
            op,
            params,
            pre: Sequence::from_slice(alloc, pre)?,
            del: Sequence::from_slice(alloc, del)?,
            add: Sequence::from_slice(alloc, add)?,
            param_sorts: no_sorts(alloc, params)?,
        })
    }
}

/// Returns the list of that many zeros: no sort for each object, or for each parameter.
///
/// # Errors
/// `NoMemory` where there is no memory for the list.
fn no_sorts(alloc: Global, count: u32) -> Result<Sequence<u32>, NoMemory>
    ensures { IfOk result (λ sorts. sorts ≡ replicate count 0) }
{
    Ok(Sequence::from_vec(vec![in alloc; 0; count as usize]?))
}

/// What a search is about: objects, predicates, axioms and operators, with the limits of proofs and searches.
#[derive(Drop)]
pub struct Problem {
    /// How many objects there are; they are numbered from 0.
    pub objects: u32,
    /// The number of arguments of each predicate.
    pub arities: Sequence<u8>,
    /// The clauses that hold in every state.
    pub axioms: ClauseArena,
    /// The operators by number.
    pub schemas: Sequence<Schema>,
    /// The greatest height of a proof, from 1 to 8.
    pub height: u32,
    /// How many nodes a search may find, from 1 to 1,000,000.
    pub nodes: u32,
    /// How many shapes of unfinished proofs a question may meet, from 2 to 70,000.
    pub shapes: u32,
    /// How many sorts there are, numbered from 1.
    pub sorts: u32,
    /// The sort of each object, as many as there are objects; 0 is no sort.
    pub object_sorts: Sequence<u32>,
    /// How heavily a search counts what a node lacks beside the moves that reach it, from 0, which is breadth, to 1,000 (Pohl 1970).
    pub weight: u32,
}

/// The limits of a problem's proofs and of its searches.
#[derive(Clone, Copy)]
pub struct Limits {
    /// The greatest height of a proof.
    pub height: u32,
    /// How many nodes a search may find.
    pub nodes: u32,
    /// How many shapes of unfinished proofs a question may meet.
    pub shapes: u32,
}

impl Problem {
    /// Returns the problem none of whose objects has a sort, of weight 0.
    ///
    /// # Errors
    /// `NoMemory` where there is no memory for the lists.
    pub fn without_sorts(
        alloc: Global,
        objects: u32,
        arities: &[u8],
        axioms: ClauseArena,
        schemas: Sequence<Schema>,
        limits: Limits,
    ) -> Result<Problem, NoMemory>
        ensures { IfOk result (λ problem. problem
            ≡ problem_without_sorts objects arities.now axioms schemas limits.height limits.nodes limits.shapes) }
    {
        Ok(Problem {
            objects,
            arities: Sequence::from_slice(alloc, arities)?,
            axioms,
            schemas,
            height: limits.height,
            nodes: limits.nodes,
            shapes: limits.shapes,
            sorts: 0,
            object_sorts: no_sorts(alloc, objects)?,
            weight: 0,
        })
    }
}
