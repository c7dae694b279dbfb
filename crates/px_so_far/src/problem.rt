//! The problem that the lines so far give.
ghost use Rattle.std.specs.Prelude.{◌≡◌, IfOk, OnErr, OnOk};
ghost use Rattle.px_script.specs.Content.{own_problem};
ghost use Rattle.px_script.specs.Declarations.{problem_here, filled_up};
ghost use Rattle.px_so_far.specs.Common.{declared_of};
ghost use Rattle.px_so_far.specs.Problems.{HasFewSorts, HasProblem};

use crate::so_far::SoFar;
use px_base::{NoMemory, Sequence, push};
use px_names::Kind;
use px_rooms::{Building, rooms_problem};
use px_script::{DEFAULT_HEIGHT, DEFAULT_SHAPES, default_nodes, default_weight};
use px_terms::{ArenaErr, ClauseArena, Problem, Schema};
use std::alloc::Global;

/// Appends the sort 0, which is no sort, for each of so many objects that the list doesn't reach.
///
/// # Errors
/// `NoMemory` where there is no memory for them. The list is then as it was.
pub fn fill_up(alloc: Global, sorts: &mut Vec<u32>, objects: u32) -> Result<(), NoMemory>
    ensures filled { OnOk result (sorts.new.items ≡ filled_up objects sorts.old.items) }
    ensures kept { OnErr result (sorts.new.items ≡ sorts.old.items) }
{
    let missing = (objects as usize).saturating_sub(sorts.len());
    let new = vec![in alloc; 0; missing]?;
    sorts.extend_from_slice(&new)?;
    Ok(())
}

/// Returns a copy of the axioms.
fn copied_axioms(alloc: Global, axioms: &ClauseArena) -> Result<ClauseArena, NoMemory>
    ensures { IfOk result (λ copy. copy ≡ axioms.now) }
{
    let mut copy = ClauseArena::new(alloc);
    for number in 0..axioms.count() {
        match copy.push(axioms.variable_count(number), axioms.lits(number)) {
            Ok(_) => {}
            Err(ArenaErr::NoMemory) => return Err(NoMemory),
            Err(ArenaErr::BadLength) => unreachable!(),
            Err(ArenaErr::Full) => unreachable!(),
        }
    }
    Ok(copy)
}

/// Returns a copy of an operator.
fn copied_schema(schema: &Schema) -> Result<Schema, NoMemory>
    ensures { IfOk result (λ copy. copy ≡ schema.now) }
{
    Ok(Schema {
        op: schema.op,
        params: schema.params,
        pre: schema.pre.try_copy()?,
        del: schema.del.try_copy()?,
        add: schema.add.try_copy()?,
        param_sorts: schema.param_sorts.try_copy()?,
    })
}

/// Returns a copy of each operator.
fn copied_schemas(alloc: Global, schemas: &[Schema]) -> Result<Vec<Schema>, NoMemory>
    ensures { IfOk result (λ copies. copies.items ≡ schemas.now) }
{
    let mut copies = Vec::new(alloc);
    for schema in schemas {
        let copy = copied_schema(schema)?;
        push(&mut copies, copy)?;
    }
    Ok(copies)
}

/// Returns the problem with this weight of its search.
fn weighted(problem: Problem, weight: u32) -> Problem
    ensures { result ≡ record problem { weight = weight } }
{
    let mut problem = problem;
    problem.weight = weight;
    problem
}

impl SoFar {
    /// Returns the problem of the script's own lines, with the limits that they give, or those that hold where they give none.
    fn own_problem(&self) -> Result<Problem, NoMemory>
        requires few_sorts { HasFewSorts (declared_of self.now) }
        ensures { IfOk result (λ problem. problem ≡ own_problem (declared_of self.now)) }
    {
        let alloc = self.alloc;
        let objects = self.names.count(Kind::Object);
        let mut object_sorts = Vec::from_slice(alloc, &self.object_sorts)?;
        fill_up(alloc, &mut object_sorts, objects)?;
        let arities = Sequence::from_slice(alloc, &self.arities)?;
        let axioms = copied_axioms(alloc, &self.axioms)?;
        let schemas = copied_schemas(alloc, &self.schemas)?;
        Ok(Problem {
            objects,
            arities,
            axioms,
            schemas: Sequence::from_vec(schemas),
            height: self.height.unwrap_or(DEFAULT_HEIGHT),
            nodes: self.nodes.unwrap_or(default_nodes(self.version)),
            shapes: self.shapes.unwrap_or(DEFAULT_SHAPES),
            sorts: self.sort_count(),
            object_sorts: Sequence::from_vec(object_sorts),
            weight: self.weight.unwrap_or(default_weight(self.version)),
        })
    }

    /// Returns a copy of the problem that the lines so far give: that of their own, or that of the building with the limits of their own.
    ///
    /// # Errors
    /// `NoMemory` where there is no memory for it.
    pub fn problem_here(&self) -> Result<Problem, NoMemory>
        requires problem { HasProblem (declared_of self.now) }
        ensures { IfOk result (λ problem. problem ≡ problem_here (declared_of self.now)) }
    {
        let own = self.own_problem()?;
        match &self.things {
            None => Ok(own),
            Some(things) => {
                let building = Building {
                    things: Sequence::from_slice(self.alloc, things)?,
                };
                let rules = rooms_problem(
                    self.alloc, &building, own.height, own.nodes, own.shapes,
                )?;
                Ok(weighted(rules, own.weight))
            }
        }
    }
}
