//! Search trees: each of their ends, two weights, and a learned table.
use crate::answer_tests::answers;
use crate::pursuit_tests::PLACES;
use crate::samples::{BEGINNING, Pieces, REST};
use px_io::NoMemory;
use std::rt::HostRuntime;

// Scripts, and the replies to their commands.
const GROWN: &[(Pieces, Pieces)] = &[
    // With weight 16 the third list is found and not gone on from.
    (
        &[
            ("script 3\n", 1),
            PLACES,
            ("tree T 4 AT(A,Y)\ntree U 3 AT(A,Y) AT(B,Z)\n", 1),
        ],
        &[
            (
                "tree T 4 nodes\n  0 needs 1\n  1 from 0 push MOVE(A,X,Y) needs 1\n  2 from 0 push MOVE(A,Z,Y) needs 2\n",
                1,
            ),
            ("  3 from 1 apply MOVE(A,X,Y) needs 0\n  solved\n", 1),
            (
                "tree U 3 nodes\n  0 needs 2\n  1 from 0 push MOVE(A,X,Y) needs 2\n  2 from 0 push MOVE(A,Z,Y) needs 3\n",
                1,
            ),
            ("  more 1 moves\n", 1),
        ],
    ),
    // With weight 0 the lists come in the order of breadth. The operator moves no place, so each list ends.
    (
        &[
            ("script 3\n", 1),
            PLACES,
            ("weight 0\ntree V 7 AT(A,Y) AT(B,Z)\ntree W 9 AT(X,Y)\n", 1),
        ],
        &[
            (
                "tree V 7 nodes\n  0 needs 2\n  1 from 0 push MOVE(A,X,Y) needs 2\n  2 from 0 push MOVE(A,Z,Y) needs 3\n",
                1,
            ),
            (
                "  3 from 0 push MOVE(B,X,Z) needs 3\n  4 from 1 apply MOVE(A,X,Y) needs 1\n  5 from 2 push MOVE(A,X,Z) needs 3\n",
                1,
            ),
            ("  6 from 3 push MOVE(B,Y,X) needs 3\n  more 3 moves\n", 1),
            (
                "tree W 9 nodes\n  0 needs 1\n  1 from 0 push MOVE(X,X,Y) needs 2\n  2 from 0 push MOVE(X,Z,Y) needs 2\n",
                1,
            ),
            (
                "  3 from 1 push MOVE(X,Y,X) needs 3\n  4 from 2 push MOVE(X,X,Z) needs 3\n  5 from 3 push MOVE(X,Z,Y) needs 4\n",
                1,
            ),
            (
                "  6 from 4 push MOVE(X,Y,X) needs 4\n  7 from 5 push MOVE(X,X,Z) needs 5\n  8 from 6 push MOVE(X,X,Y) needs 5\n",
                1,
            ),
            ("  exhausted\n", 1),
        ],
    ),
    // The first question has too many shapes.
    (
        &[
            (
                "script 3\nobject R\npredicate A 1\npredicate B 1\npredicate C 1\n",
                1,
            ),
            (
                "axiom ~B(?x) A(?x)\naxiom ~C(?x) A(?x)\noperator GO(x)\npre A(x)\nadd B(x)\nend\nshapes 2\ntree S 9 A(R)\n",
                1,
            ),
        ],
        &[("tree S 1 nodes\n  0 needs 1\n  shapelimit 2 shapes\n", 1)],
    ),
    // The steps of a learned table are pushed and applied as one.
    (
        &[
            ("script 3\n", 1),
            (BEGINNING, 1),
            (REST, 1),
            ("learn M1 from P1\ntree T 9 INROOM(B1,R1)\n", 1),
        ],
        &[
            (
                "plan P1 2 steps 4 moves\n  1 GOTHRU(D1,R1,R2)\n  2 PUSHTHRU(B1,D1,R2,R1)\nlearned M1 6 parameters 2 steps\n",
                1,
            ),
            (
                "tree T 5 nodes\n  0 needs 1\n  1 from 0 push PUSHTHRU(B1,D1,R2,R1) needs 3\n",
                1,
            ),
            (
                "  2 from 0 push M1 GOTHRU(D1,R1,R2) PUSHTHRU(B1,D1,R2,R1) needs 1\n",
                1,
            ),
            (
                "  3 from 0 push M1 GOTHRU(D2,R3,R2) PUSHTHRU(B1,D1,R2,R1) needs 3\n",
                1,
            ),
            (
                "  4 from 2 apply M1 GOTHRU(D1,R1,R2) PUSHTHRU(B1,D1,R2,R1) needs 0\n  solved\n",
                1,
            ),
        ],
    ),
    // A tree leaves what is recorded; the next one begins where the run ended.
    (
        &[
            (
                "script 3\nbuilding\nroom R1\nroom R2\nroom R3\ndoor D1 R1 R2 open\ndoor D2 R2 R3 open\nrobot R1\nend\n",
                1,
            ),
            (
                "plan P INROOM(ROBOT,R3)\ndisturb 1 before robot R2\ntree Q 3 INROOM(ROBOT,R3)\nrun P\n",
                1,
            ),
            ("tree T 3 INROOM(ROBOT,R3)\n", 1),
        ],
        &[
            (
                "plan P 2 steps 4 moves\n  1 GOTHRU(D1,R1,R2)\n  2 GOTHRU(D2,R2,R3)\nnoted 1\n",
                1,
            ),
            (
                "tree Q 3 nodes\n  0 needs 1\n  1 from 0 push GOTHRU(D2,R2,R3) needs 2\n  2 from 1 push GOTHRU(D1,R1,R2) needs 2\n",
                1,
            ),
            (
                "  more 2 moves\nrun P\n  turn 1 kernel 2 GOTHRU(D2,R2,R3) acted\n  turn 2 kernel 3 goal\n",
                1,
            ),
            ("tree T 1 nodes\n  0 needs 0\n  solved\n", 1),
        ],
    ),
];

#[test]
fn trees_have_the_nodes_of_a_search(rt: HostRuntime) -> Result<(), NoMemory> {
    let alloc = rt.alloc();
    for (script, replies) in GROWN {
        assert!(&rt; answers(alloc, script, replies)?);
    }
    Ok(())
}
