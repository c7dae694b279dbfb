//! Scripts with what is written for them, the demo, and the words of the command line.
use crate::runs::{called, ran};
use crate::samples::{EXAMPLE, Pieces, REPLIES, joined};
use px_io::NoMemory;
use px_run::Status;
use std::alloc::Global;
use std::rt::HostRuntime;

/// Two operators, of which one deletes under the name of one object what is true of another.
pub(crate) const DANGER: (&str, u32) = (
    "object a b
predicate P 1
predicate Q 1
predicate R 1
predicate G 1
operator A(x)
pre P(x)
delete Q(x)
add R(x)
end
operator B(x,y)
pre R(x) Q(y)
add G(x)
end
fact P(a) Q(b)
",
    1,
);

// The example of 1972 with a sort of boxes.
const SORTED_BEGINNING: &str = "script 2
object ROBOT R1 R2 R3 D1 D2
sort BOXES B1
predicate INROOM 2
predicate CONNECTS 3
predicate BOX 1
axiom ~CONNECTS(?d,?x,?y) CONNECTS(?d,?y,?x)
operator GOTHRU(d,r1,r2)
pre INROOM(ROBOT,r1) CONNECTS(d,r1,r2)
delete INROOM(ROBOT,$)
add INROOM(ROBOT,r2)
end
";

const SORTED_REST: &str = "operator PUSHTHRU(b,d,r1,r2)
param BOXES b
pre INROOM(b,r1) INROOM(ROBOT,r1) CONNECTS(d,r1,r2)
delete INROOM(ROBOT,$) INROOM(b,$)
add INROOM(ROBOT,r2) INROOM(b,r2)
end
fact INROOM(ROBOT,R1) CONNECTS(D1,R1,R2) CONNECTS(D2,R2,R3)
fact BOX(B1) INROOM(B1,R2)
";

// Two hands, and one thing that each can take.
const TAKING: &str = "script 2
object A B X
predicate FREE 1
predicate HAS 2
operator TAKE(hand,thing)
pre FREE(thing)
delete FREE(thing)
add HAS(hand,thing)
end
fact FREE(X)
plan P HAS(A,X)
plan Q HAS(B,X)
";

const TAKEN: &str = "plan P 1 steps 2 moves
  1 TAKE(A,X)
plan Q 1 steps 2 moves
  1 TAKE(B,X)
";

// Scripts, and the replies to their commands.
const ANSWERED: &[(Pieces, Pieces)] = &[
    (&[], &[]),
    (EXAMPLE, REPLIES),
    (
        &[(
            "object 室\npredicate ÖFFNE 1\nfact ÖFFNE(室)\nplan N ÖFFNE(室)\nfacts\n",
            1,
        )],
        &[("plan N 0 steps 0 moves\nfacts 1\n  ÖFFNE(室)\n", 1)],
    ),
    (
        &[
            DANGER,
            (
                "plan N G(a)\nplan M G(b)\ndisturb 1 before -P(a)\nrun M\nrun N p1=a\nrun N\nfacts",
                1,
            ),
        ],
        &[
            (
                "plan N 2 steps 4 moves\n  1 A(a)\n  2 B(a,b)\nexhausted M\nnoted 1\nunknown M\nunknown p1\n",
                1,
            ),
            ("run N\n  turn 1 nokernel\nfacts 1\n  Q(b)\n", 1),
        ],
    ),
    (
        &[DANGER, ("nodes 2\nplan N G(a)\n", 1)],
        &[("nodelimit N 2 nodes 2 moves\n", 1)],
    ),
    // One more is learned than may be.
    (
        &[
            ("predicate P 0\nfact P\nplan N P\n", 1),
            ("learn M@ from N\n", 33),
        ],
        &[
            ("plan N 0 steps 0 moves\n", 1),
            ("learned M@ 0 parameters 0 steps\n", 32),
            ("notlearned M32 full\n", 1),
        ],
    ),
    // Only a box can be pushed: with a sort there are twelve nodes, and eleven are too few.
    (
        &[
            (SORTED_BEGINNING, 1),
            (SORTED_REST, 1),
            ("nodes 11\nplan P1 BOX(?x) INROOM(?x,R1)\n", 1),
        ],
        &[("nodelimit P1 11 nodes 4 moves\n", 1)],
    ),
    // What isn't of the parameter's sort fits it in no run.
    (
        &[
            (SORTED_BEGINNING, 1),
            (SORTED_REST, 1),
            ("nodes 12\nplan P1 BOX(?x) INROOM(?x,R1)\n", 1),
            (
                "learn M1 from P1\ndisturb 1 before +BOX(ROBOT)\nrun M1 p4=ROBOT\n",
                1,
            ),
        ],
        &[
            (
                "plan P1 2 steps 4 moves\n  1 GOTHRU(D1,R1,R2)\n  2 PUSHTHRU(B1,D1,R2,R1)\n",
                1,
            ),
            (
                "learned M1 6 parameters 2 steps\nnoted 1\nrun M1\n  turn 1 nokernel\n",
                1,
            ),
        ],
    ),
    // Both want the thing, and the first is quicker. What was to happen in a run happens in the next one.
    (
        &[
            (TAKING, 1),
            (
                "disturb 1 before +FREE(X)\nduo P Q 1 2 1 2 2 1\nfacts\nrun Q\n",
                1,
            ),
        ],
        &[
            (TAKEN, 1),
            (
                "noted 1\nduo P Q\n  1 kernel 1 TAKE(A,X)\n  2 kernel 1 TAKE(B,X)\n  1 acted\n  2 slipped\n",
                1,
            ),
            ("  2 nokernel\n  1 goal\nfacts 1\n  HAS(A,X)\nrun Q\n", 1),
            (
                "  turn 1 kernel 1 TAKE(B,X) acted\n  turn 2 kernel 2 goal\n",
                1,
            ),
        ],
    ),
    // Someone closes the door that the robot has opened.
    (
        &[
            (
                "building\nroom R1\nroom R2\ndoor D1 R1 R2 closed\nbox B1 R2\nrobot R1\nend\n",
                1,
            ),
            (
                "plan Q INROOM(ROBOT,R2)\ndisturb 3 before door D1 closed\nrun Q\n",
                1,
            ),
        ],
        &[(
            "plan Q 3 steps 6 moves\n  1 GOTOD(D1,R1,R2)\n  2 OPEN(D1)\n  3 GOTHRU(D1,R1,R2)\nnoted 1\nrun Q
  turn 1 kernel 1 GOTOD(D1,R1,R2) acted
  turn 2 kernel 2 OPEN(D1) acted
  turn 3 kernel 2 OPEN(D1) acted
  turn 4 kernel 3 GOTHRU(D1,R1,R2) acted
  turn 5 kernel 4 goal
",
            1,
        )],
    ),
];

/// Returns whether this is written for the script.
pub(crate) fn answers(alloc: Global, script: Pieces, replies: Pieces) -> Result<bool, NoMemory> {
    let wanted = joined(alloc, replies)?;
    let (status, written) = ran(alloc, joined(alloc, script)?)?;
    Ok(status == Status::Done && written.as_slice() == wanted.as_slice())
}

#[test]
fn commands_are_answered_in_order(rt: HostRuntime) -> Result<(), NoMemory> {
    let alloc = rt.alloc();
    for (script, replies) in ANSWERED {
        assert!(&rt; answers(alloc, script, replies)?);
    }
    Ok(())
}

// Numbers of rooms, and the line of each demo with the seed 0.
const DEMOS: &[(&str, &str)] = &[
    ("3", "demo 3 0 9 commands 3 plans 3 steps 3 goals\n"),
    ("4", "demo 4 0 12 commands 4 plans 5 steps 4 goals\n"),
    ("5", "demo 5 0 15 commands 5 plans 6 steps 5 goals\n"),
    ("6", "demo 6 0 18 commands 6 plans 8 steps 6 goals\n"),
    ("7", "demo 7 0 21 commands 7 plans 10 steps 7 goals\n"),
    ("8", "demo 8 0 24 commands 8 plans 12 steps 8 goals\n"),
    ("9", "demo 9 0 27 commands 9 plans 13 steps 9 goals\n"),
    ("10", "demo 10 0 30 commands 10 plans 14 steps 10 goals\n"),
    ("11", "demo 11 0 33 commands 11 plans 16 steps 11 goals\n"),
    ("12", "demo 12 0 36 commands 12 plans 17 steps 12 goals\n"),
];

#[test]
fn each_demo_is_summed_up(rt: HostRuntime) -> Result<(), NoMemory> {
    let alloc = rt.alloc();
    for (rooms, line) in DEMOS {
        let (status, written) = called(alloc, &["demo", rooms, "0"])?;
        assert!(&rt; status == Status::Done && written.as_slice() == line.as_bytes());
    }
    Ok(())
}

#[test]
fn other_words_are_answered_by_the_usage(rt: HostRuntime) -> Result<(), NoMemory> {
    let (status, written) = called(rt.alloc(), &["demo", "2", "0"])?;
    let usage = b"usage: planex run | planex demo ROOMS SEED | planex check\n";
    assert!(&rt; status == Status::Usage && written.as_slice() == usage.as_slice());
    Ok(())
}
