//! What is written is read back and verified.
use px_base::Sequence;
use px_cert::{cert_text, read_cert, verify};
use px_samples::{atom, fact, instance, mark, no, problem_of, row, schema, v, yes};
use px_table::Table;
use px_terms::{ClauseArena, Problem};
use std::alloc::Global;
use std::process::Abort;
use std::rt::HostRuntime;

/// Returns the problem of one object, an axiom and an operator that deletes what is about any object and adds what is about its own.
fn problem(alloc: Global, rt: &impl Abort) -> Problem {
    let mut axioms = ClauseArena::new(alloc);
    let lits = [yes(atom(0, &[v(0)])), no(atom(0, &[v(0)]))];
    px_samples::add_axiom(&mut axioms, 1, &lits).expect(rt, "memory");
    let put = schema(
        alloc,
        (0, 1),
        &[],
        &[atom(0, &[px_terms::Term::Any])],
        &[atom(0, &[v(0)])],
    )
    .expect(rt, "memory");
    problem_of(alloc, 1, &[1], axioms, [put]).expect(rt, "memory")
}

/// Returns the table of one step, with one parameter.
fn table(alloc: Global, rt: &impl Abort) -> Table {
    let goal = atom(0, &[v(0)]);
    let steps = [instance(0, &[v(0)])];
    let rows = [
        row(alloc, []).expect(rt, "memory"),
        row(alloc, [fact(1, 0, goal)]).expect(rt, "memory"),
    ];
    let made = Table::without_sorts(
        alloc,
        1,
        Sequence::from_slice(alloc, &steps).expect(rt, "memory"),
        Sequence::from_slice(alloc, &[goal]).expect(rt, "memory"),
        0,
        Sequence::from_slice(alloc, &[mark(2, 1, 0, goal)]).expect(rt, "memory"),
        Sequence::from_vec(Vec::from_array(alloc, rows).expect(rt, "memory")),
    );
    made.expect(rt, "memory")
}

/// The certificate of the table.
const TEXT: &str =
    "planex certificate 1\nobjects 1 0\npredicates 1 1\naxioms 1\naxiom 1 2 1 0 v0 0 0 v0\noperators 1\noperator 1 0\npre 0\ndelete 1 0 $\nadd 1 0 v0\ntable 1 0\ngoal 0 1 0 v0\nsteps 1\nstep 0 v0\nrow 0\nrow 1 f 1 0 0 v0\n";

#[test]
fn table_has_its_text(rt: HostRuntime) {
    let alloc = rt.alloc();
    let text = cert_text(alloc, &problem(alloc, &rt), &table(alloc, &rt)).expect(&rt, "memory");
    assert!(&rt; text.as_slice() == TEXT.as_bytes());
    let cert = match read_cert(alloc, &text) {
        Ok(cert) => cert,
        Err(_) => {
            assert!(&rt; false);
            return;
        }
    };
    assert!(&rt; verify(&cert));
    assert!(&rt; cert.params() == 1 && cert.steps() == 1);
}
