//! How many questions are asked.

use px_diff::{Measured, relevant_measured};
use px_entries::are_learned;
use px_ops::Model;
use px_samples::{
    add_axiom, atom, fact, instance, is_in, model_of, no, o, opening, problem_of, row, schema,
    sorted_rooms, v, yes,
};
use px_table::{Table, marks};
use px_terms::{Atom, ClauseArena, Problem, Sequence, is_valid};
use std::alloc::Global;
use std::process::Abort;
use std::rt::HostRuntime;

/// Returns what may be pushed so that these atoms hold, and with how many questions.
fn measured_of(
    alloc: Global,
    rt: &impl Abort,
    problem: Option<Problem>,
    tables: &[Table],
    model: Option<Model>,
    wanted: &[Atom],
) -> Measured {
    let problem = problem.expect(rt, "memory");
    assert!(rt; is_valid(&problem));
    assert!(rt; are_learned(&problem, tables));
    let model = model.expect(rt, "memory");
    let measured = relevant_measured(alloc, &problem, wanted, &[], &model, tables);
    measured.ok().expect(rt, "an answer")
}

/// Where nothing is wanted nothing is asked. Where the robot is to be in room 3, and only the box can be pushed, 193 more objects that don't
/// fit cost no question.
#[test]
fn objects_that_do_not_fit_are_not_asked_about(rt: HostRuntime) {
    let alloc = rt.alloc();
    let none = measured_of(alloc, &rt, sorted_rooms(alloc, 0), &[], opening(alloc), &[]);
    assert!(&rt; none.questions == 0 && none.entries.is_empty());
    let wanted = [is_in(o(0), o(3))];
    let few = measured_of(
        alloc,
        &rt,
        sorted_rooms(alloc, 0),
        &[],
        opening(alloc),
        &wanted,
    );
    let many = measured_of(
        alloc,
        &rt,
        sorted_rooms(alloc, 193),
        &[],
        opening(alloc),
        &wanted,
    );
    assert!(&rt; few.entries.len() == 2 && many.entries.as_slice() == few.entries.as_slice());
    assert!(&rt; few.questions > 0 && many.questions == few.questions);
}

/// Returns the sort 1, and then none for each of `others`.
fn with_first(alloc: Global, others: u32) -> Option<Sequence<u32>> {
    let mut sorts = Vec::new(alloc);
    sorts.push(1).ok()?;
    for _other in 0..others {
        sorts.push(0).ok()?;
    }
    Some(Sequence::from_vec(sorts))
}

/// Returns a problem in which atom 0 of object 1 follows from atom 3. An operator adds atom 1; a second one needs atom 0 of an object, and
/// atom 1, and adds atom 2. Only object 0 has the sort of its parameter. There are so many other objects, at least one.
fn finishing(alloc: Global, others: u32) -> Option<Problem> {
    let (begun, done) = (atom(1, &[]), atom(2, &[]));
    let mut axioms = ClauseArena::new(alloc);
    add_axiom(&mut axioms, 0, &[no(atom(3, &[])), yes(atom(0, &[o(1)]))])?;
    let begin = schema(alloc, (0, 0), &[], &[], &[begun])?;
    let mut finish = schema(alloc, (1, 1), &[atom(0, &[v(0)]), begun], &[], &[done])?;
    finish.param_sorts = with_first(alloc, 0)?;
    let objects = others.saturating_add(1);
    let mut problem = problem_of(alloc, objects, &[1, 0, 0, 0], axioms, [begin, finish])?;
    problem.sorts = 1;
    problem.object_sorts = with_first(alloc, others)?;
    Some(problem)
}

/// Returns the table of both operators one after the other. Of its nine parameters no step uses the last eight.
fn begin_and_finish(alloc: Global) -> Option<Table> {
    let (begun, done) = (atom(1, &[]), atom(2, &[]));
    let rows = [
        row(alloc, [])?,
        row(alloc, [fact(0, 0, atom(0, &[v(0)])), fact(1, 0, begun)])?,
        row(alloc, [fact(2, 0, done)])?,
    ];
    let made = marks(alloc, &rows).ok()?;
    let steps = [instance(0, &[]), instance(1, &[v(0)])];
    let table = Table::without_sorts(
        alloc,
        9,
        Sequence::from_slice(alloc, &steps).ok()?,
        Sequence::from_slice(alloc, &[done]).ok()?,
        0,
        made,
        Sequence::from_vec(Vec::from_array(alloc, rows).ok()?),
    );
    let mut table = table.ok()?;
    table.param_sorts = with_first(alloc, 8)?;
    Some(table)
}

/// Of an object that doesn't fit a table's rows ask nothing: it takes as many questions with six of them as with one. There are 512 choices
/// of objects and more, so that not each is tried by itself.
#[test]
fn rows_ask_nothing_about_what_does_not_fit(rt: HostRuntime) {
    let alloc = rt.alloc();
    let tables = [begin_and_finish(alloc).expect(&rt, "memory")];
    let wanted = [atom(2, &[])];
    let given = [atom(0, &[o(0)])];
    let few = measured_of(
        alloc,
        &rt,
        finishing(alloc, 1),
        &tables,
        model_of(alloc, &given),
        &wanted,
    );
    let many = measured_of(
        alloc,
        &rt,
        finishing(alloc, 6),
        &tables,
        model_of(alloc, &given),
        &wanted,
    );
    assert!(&rt; few.entries.len() == 2 && many.entries.len() == 2);
    assert!(&rt; few.questions > 0 && many.questions == few.questions);
}
