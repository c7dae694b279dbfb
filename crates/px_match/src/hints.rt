//! What to look at when an object is put at a place. It is a hint: nothing rests on it.
ghost use Rattle.std.specs.Prelude.{All};
ghost use Rattle.px_terms.specs.Validity.{IsSchemaWellFormed, IsValid};
ghost use Rattle.px_ops.specs.Models.{IsInstanceOfSchema};
ghost use Rattle.px_table.specs.Tables.{IsStepOf};

use px_base::NoMemory;
use px_ops::schema_of;
use px_table::{Mark, Table};
use px_terms::{Atom, OpInst, Problem, Schema, Term, apply};
use std::alloc::Global;

/// A delete pattern of a step that may delete a mark between whose column and row the step stands.
#[derive(Clone, Copy)]
pub struct MarkClash {
    pub mark: usize,
    pub step: usize,
    pub pattern: usize,
}

/// What concerns the parameter of a place.
#[derive(Drop)]
pub struct Hints {
    /// The marks that have it; for the first place those without parameters, too.
    pub marks: Vec<usize>,
    /// The clashes whose last parameter it is; for the first place those without parameters, too.
    pub clashes: Vec<MarkClash>,
    /// Later places, but not the next one, on whose objects a mark that has this parameter and another mark have to agree.
    pub meetings: Vec<usize>,
}

impl Hints {
    fn new(alloc: Global) -> Hints {
        Hints {
            marks: Vec::new(alloc),
            clashes: Vec::new(alloc),
            meetings: Vec::new(alloc),
        }
    }
}

/// Returns whether the terms may be the same for some objects.
fn may_meet(pattern: Term, term: Term) -> bool {
    match (pattern, term) {
        (Term::Obj(one), Term::Obj(other)) => one == other,
        _ => true,
    }
}

/// Returns whether the pattern may stand for the atom.
fn may_delete(pattern: &Atom, atom: &Atom) -> bool {
    if pattern.pred() != atom.pred() {
        return false;
    }
    let terms = atom.args();
    for (at, term) in pattern.args().iter().enumerate() {
        if at < terms.len() && !may_meet(*term, terms[at]) {
            return false;
        }
    }
    true
}

/// Returns the last parameter among the terms, or `so_far` where none is later.
fn last_parameter(terms: &[Term], so_far: u32) -> u32 {
    let mut last = so_far;
    for term in terms {
        if let Term::Var(number) = *term {
            if number > last {
                last = number;
            }
        }
    }
    last
}

/// Appends the number, unless it is the last one.
fn put_once(numbers: &mut Vec<usize>, number: usize) -> Result<(), NoMemory> {
    if numbers.last() != Some(&number) {
        numbers.push(number)?;
    }
    Ok(())
}

/// Records the mark at the places of its parameters, or at the first place where it has none.
fn put_mark(hints: &mut [Hints], mark: usize, atom: &Atom) -> Result<(), NoMemory> {
    let mut is_plain = true;
    for term in atom.args() {
        if let Term::Var(number) = *term {
            is_plain = false;
            if (number as usize) < hints.len() {
                put_once(&mut hints[number as usize].marks, mark)?;
            }
        }
    }
    if is_plain && !hints.is_empty() {
        hints[0].marks.push(mark)?;
    }
    Ok(())
}

/// Records the patterns of the step that may delete the mark.
fn put_clashes(
    hints: &mut [Hints],
    schema: &Schema,
    mark: usize,
    atom: &Atom,
    step: usize,
    inst: &OpInst,
) -> Result<(), NoMemory>
    requires schema { IsSchemaWellFormed schema.now }
    requires instance { IsInstanceOfSchema schema.now inst.now }
{
    for (at, raw) in schema.del.as_slice().iter().enumerate() {
        let pattern = apply(inst.args(), raw);
        let place = last_parameter(atom.args(), last_parameter(pattern.args(), 0)) as usize;
        if may_delete(&pattern, atom) && place < hints.len() {
            hints[place].clashes.push(MarkClash {
                mark,
                step,
                pattern: at,
            })?;
        }
    }
    Ok(())
}

/// Records what may delete the mark.
fn put_clashes_of(
    hints: &mut [Hints],
    problem: &Problem,
    table: &Table,
    mark: usize,
    found: &Mark,
) -> Result<(), NoMemory>
    requires problem { IsValid problem.now }
    requires steps { All (IsStepOf problem.now table.now.params) table.now.steps }
{
    for (before, step) in table.steps.as_slice().iter().enumerate() {
        if (found.column as usize) <= before && before + 1 < found.row as usize {
            let schema = schema_of(problem, step);
            put_clashes(hints, schema, mark, &found.atom, before, step)?;
        }
    }
    Ok(())
}

/// Returns the place after the last parameter before `later` among the terms, or 0.
fn end_before(terms: &[Term], later: usize) -> usize {
    let mut end = 0;
    for term in terms {
        if let Term::Var(number) = *term {
            let place = number as usize;
            if place < later && end <= place {
                end = place + 1;
            }
        }
    }
    end
}

/// Returns the second of these ends, in ascending order, of the marks of these numbers.
fn second_end(numbers: &[usize], marks: &[Mark], later: usize) -> usize {
    let mut first = usize::MAX;
    let mut second = usize::MAX;
    for number in numbers {
        if *number < marks.len() {
            let end = end_before(marks[*number].atom.args(), later);
            if end < first {
                second = first;
                first = end;
            } else if end < second {
                second = end;
            }
        }
    }
    second
}

/// Returns the last place before `later` of the mark at that place of the numbers, if it isn't before that of every other mark that has
/// the parameter of `later`, and isn't the place just before.
fn meeting_place(
    numbers: &[usize],
    marks: &[Mark],
    later: usize,
    second: usize,
    at: usize,
) -> Option<usize> {
    if at >= numbers.len() || numbers[at] >= marks.len() {
        return None;
    }
    let end = end_before(marks[numbers[at]].atom.args(), later);
    if end < second || end == 0 || end >= later {
        return None;
    }
    Some(end - 1)
}

/// Records the later place where two marks that have it are known but for its object.
fn put_meetings(hints: &mut [Hints], marks: &[Mark], later: usize) -> Result<(), NoMemory> {
    if later >= hints.len() {
        return Ok(());
    }
    let second = second_end(&hints[later].marks, marks, later);
    let count = hints[later].marks.len();
    for at in 0..count {
        if let Some(place) = meeting_place(&hints[later].marks, marks, later, second, at) {
            if place < hints.len() {
                put_once(&mut hints[place].meetings, later)?;
            }
        }
    }
    Ok(())
}

/// Returns what to look at, for each place.
pub fn hints_of(alloc: Global, problem: &Problem, table: &Table) -> Result<Vec<Hints>, NoMemory>
    requires problem { IsValid problem.now }
    requires steps { All (IsStepOf problem.now table.now.params) table.now.steps }
{
    let mut hints = Vec::new(alloc);
    for _place in 0..table.params {
        hints.push(Hints::new(alloc))?;
    }
    for (at, mark) in table.marks.as_slice().iter().enumerate() {
        put_mark(&mut hints, at, &mark.atom)?;
        put_clashes_of(&mut hints, problem, table, at, mark)?;
    }
    for later in 0..hints.len() {
        put_meetings(&mut hints, table.marks.as_slice(), later)?;
    }
    Ok(hints)
}
