//! Tables that are edited, saved, read and certified.
use crate::answer_tests::{DANGER, answers};
use crate::samples::{BEGINNING, Pieces, REST};
use px_io::NoMemory;
use std::rt::HostRuntime;

// The lines of a table as `save` writes them.
const BLOCK: (&str, u32) = (
    "table M 2
step A(?p1)
step B(?p1,?p2)
goal G(?p1)
proof f 0 0 P(?p1)
proof f 1 0 R(?p1) f 0 0 Q(?p2)
proof f 2 0 G(?p1)
end
",
    1,
);

// A plan in which a step undoes another: to put A on B and B on C.
const STACKING: (&str, u32) = (
    "script 2
object A B C T
predicate ON 2
predicate CLEAR 1
predicate NE 2
operator TOTABLE(x,y)
pre CLEAR(x) ON(x,y) NE(x,y)
delete ON(x,y)
add ON(x,T) CLEAR(y)
end
operator FROMTABLE(x,z)
pre CLEAR(x) CLEAR(z) ON(x,T) NE(x,z)
delete ON(x,T) CLEAR(z)
add ON(x,z)
end
",
    1,
);

const STACKED: (&str, u32) = (
    "fact ON(C,A) ON(A,T) ON(B,T) CLEAR(B) CLEAR(C)
fact NE(A,B) NE(A,C) NE(B,A) NE(B,C) NE(C,A) NE(C,B)
nodes 50000
plan P ON(A,B) ON(B,C)
edit D from P 5 6=0
edit E from P 5 5=0
",
    1,
);

// Scripts, and the replies to their commands.
const ANSWERED: &[(Pieces, Pieces)] = &[
    // Only the first step of a plan is kept, for another room.
    (
        &[
            ("script 2\n", 1),
            (BEGINNING, 1),
            (REST, 1),
            (
                "learn M1 from P1\nedit E from M1 2 1=0\nshow E\nedit F from M1 0 1=0\n",
                1,
            ),
        ],
        &[
            (
                "plan P1 2 steps 4 moves\n  1 GOTHRU(D1,R1,R2)\n  2 PUSHTHRU(B1,D1,R2,R1)\n",
                1,
            ),
            (
                "learned M1 6 parameters 2 steps
edited E 3 parameters 1 steps
table E 3 parameters 1 steps
row 1 GOTHRU(p2,p1,p3)
  0 INROOM(ROBOT,p1)
  0 CONNECTS(p2,p1,p3)
row 2 goal INROOM(ROBOT,p3)
  1 INROOM(ROBOT,p3)
notedited F prefix
",
                1,
            ),
        ],
    ),
    // Of five steps four are kept.
    (
        &[STACKING, STACKED],
        &[
            (
                "plan P 5 steps 10 moves
  1 TOTABLE(C,A)
  2 FROMTABLE(A,B)
  3 TOTABLE(A,B)
  4 FROMTABLE(B,C)
  5 FROMTABLE(A,B)
",
                1,
            ),
            ("notedited D want\nedited E 0 parameters 4 steps\n", 1),
        ],
    ),
    // What is learned is saved.
    (
        &[
            ("script 2\n", 1),
            DANGER,
            ("plan N G(a)\nlearn M from N\nsave M\n", 1),
        ],
        &[
            (
                "plan N 2 steps 4 moves\n  1 A(a)\n  2 B(a,b)\nlearned M 2 parameters 2 steps\n",
                1,
            ),
            BLOCK,
        ],
    ),
    // What is saved is read and run, and saved as it was read.
    (
        &[
            ("script 2\n", 1),
            DANGER,
            BLOCK,
            ("save M\nrun M p1=a\n", 1),
        ],
        &[
            BLOCK,
            (
                "run M\n  turn 1 kernel 1 A(a) acted\n  turn 2 kernel 2 B(a,b) acted\n  turn 3 kernel 3 goal\n",
                1,
            ),
        ],
    ),
    // A plan has a certificate, and an exhausted search has no table.
    (
        &[
            (
                "script 2\npredicate G 0\npredicate H 0\noperator MAKE\nadd G\nend\n",
                1,
            ),
            ("plan N G\nplan O H\ncertify N\ncertify O\nsave O\n", 1),
        ],
        &[
            ("plan N 1 steps 2 moves\n  1 MAKE\nexhausted O\n", 1),
            (
                "planex certificate 1
objects 0
predicates 2 0 0
axioms 0
operators 1
operator 0
pre 0
delete 0
add 1 0
table 0
goal 0 1 0
steps 1
step 0
row 0
row 1 f 1 0 0
",
                1,
            ),
            ("unknown O\nunknown O\n", 1),
        ],
    ),
];

#[test]
fn tables_are_edited_saved_and_certified(rt: HostRuntime) -> Result<(), NoMemory> {
    let alloc = rt.alloc();
    for (script, replies) in ANSWERED {
        assert!(&rt; answers(alloc, script, replies)?);
    }
    Ok(())
}
