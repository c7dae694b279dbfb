//! Each greatest number, and the one past it.
use crate::first_bad::first_bad;
use std::alloc::Global;
use std::process::Abort;
use std::rt::HostRuntime;

/// Beginnings of certificates, each with the number of the first wrong line. Where the last line is right it is the line that is missing.
const BEGINNINGS: [(&str, u32); 24] = [
    ("objects 1 32\n", 3),
    ("objects 1 33\n", 2),
    ("objects 0\npredicates 1 6\n", 4),
    ("objects 0\npredicates 1 7\n", 3),
    ("objects 0\npredicates 0\naxioms 64\n", 5),
    ("objects 0\npredicates 0\naxioms 65\n", 4),
    (
        "objects 1 0\npredicates 1 1\naxioms 1\naxiom 12 1 1 0 v11\n",
        6,
    ),
    (
        "objects 1 0\npredicates 1 1\naxioms 1\naxiom 12 1 1 0 v12\n",
        5,
    ),
    (
        "objects 1 0\npredicates 1 1\naxioms 1\naxiom 13 1 1 0 v11\n",
        5,
    ),
    ("objects 0\npredicates 1 1\naxioms 1\naxiom 1 1 1 0 v0\n", 5),
    (
        "objects 1 0\npredicates 1 1\naxioms 1\naxiom 0 1 1 0 $\n",
        5,
    ),
    ("objects 0\npredicates 0\naxioms 0\noperators 32\n", 6),
    ("objects 0\npredicates 0\naxioms 0\noperators 33\n", 5),
    (
        "objects 1 0\npredicates 0\naxioms 0\noperators 1\noperator 8 0 0 0 0 0 0 0 32\n",
        7,
    ),
    (
        "objects 1 0\npredicates 0\naxioms 0\noperators 1\noperator 9 0 0 0 0 0 0 0 0 0\n",
        6,
    ),
    (
        "objects 0\npredicates 0\naxioms 0\noperators 0\ntable 1 33\n",
        6,
    ),
    (
        "objects 1 0\npredicates 1 1\naxioms 0\noperators 0\ntable 0\ngoal 0 1 0 o1\n",
        7,
    ),
    (
        "objects 0\npredicates 1 1\naxioms 0\noperators 0\ntable 0\ngoal 0 1 0 $\n",
        8,
    ),
    (
        "objects 0\npredicates 0\naxioms 0\noperators 0\ntable 0\ngoal 12 0\n",
        8,
    ),
    (
        "objects 0\npredicates 0\naxioms 0\noperators 0\ntable 0\ngoal 13 0\n",
        7,
    ),
    (
        "objects 0\npredicates 1 1\naxioms 0\noperators 0\ntable 0\ngoal 0 1 0 v10010\n",
        8,
    ),
    (
        "objects 0\npredicates 1 1\naxioms 0\noperators 0\ntable 0\ngoal 0 1 0 v10011\n",
        7,
    ),
    (
        "objects 0\npredicates 0\naxioms 0\noperators 0\ntable 0\ngoal 0 0\nsteps 64\n",
        9,
    ),
    (
        "objects 0\npredicates 0\naxioms 0\noperators 0\ntable 0\ngoal 0 0\nsteps 65\n",
        8,
    ),
];

#[test]
fn numbers_have_their_limits(rt: HostRuntime) {
    for (beginning, line) in &BEGINNINGS {
        let text = format!(in rt.alloc(); "planex certificate 1\n{beginning}").expect(
            &rt, "memory",
        );
        assert!(&rt; first_bad(rt.alloc(), text.as_bytes()) == *line);
    }
}

/// Returns the text with so many items between.
fn with_items(
    alloc: Global,
    rt: &impl Abort,
    prefix: &str,
    item: &str,
    count: usize,
    end: &str,
) -> String {
    let items = item.repeat(alloc, count).expect(rt, "memory");
    format!(in alloc; "{prefix}{items}{end}").expect(rt, "memory")
}

/// Returns the first wrong line of a certificate of no steps whose goal is proved by so many steps over each other, above a fact.
fn above_a_fact(alloc: Global, rt: &impl Abort, steps: usize) -> u32 {
    let prefix =
        "planex certificate 1\nobjects 0\npredicates 1 0\naxioms 1\naxiom 0 2 1 0 0 0\noperators 0\ntable 0\ngoal 0 1 0\nsteps 0\nrow 1";
    let text = with_items(alloc, rt, prefix, " s 0 0", steps, " f 9999 9999 0\n");
    first_bad(alloc, text.as_bytes())
}

#[test]
fn proofs_have_56_levels(rt: HostRuntime) {
    assert!(&rt; above_a_fact(rt.alloc(), &rt, 55) == 0);
    assert!(&rt; above_a_fact(rt.alloc(), &rt, 56) == 10);
}

#[test]
fn lists_have_their_lengths(rt: HostRuntime) {
    let most = with_items(
        rt.alloc(),
        &rt,
        "planex certificate 1\nobjects 1024",
        " 0",
        1024,
        "\n",
    );
    assert!(&rt; first_bad(rt.alloc(), most.as_bytes()) == 3);
    let more = with_items(
        rt.alloc(),
        &rt,
        "planex certificate 1\nobjects 1025",
        " 0",
        1025,
        "\n",
    );
    assert!(&rt; first_bad(rt.alloc(), more.as_bytes()) == 2);
}
