//! Pursuits, in a world of atoms and in a building.
use crate::answer_tests::answers;
use crate::samples::Pieces;
use px_io::NoMemory;
use std::rt::HostRuntime;

/// Two robots, and paths between three places.
pub(crate) const PLACES: (&str, u32) = (
    "object A B X Y Z
predicate AT 2
predicate PATH 2
operator MOVE(r,x,y)
pre AT(r,x) PATH(x,y)
delete AT(r,$)
add AT(r,y)
end
fact AT(A,X) AT(B,Y)
fact PATH(X,Y) PATH(Y,X) PATH(X,Z) PATH(Z,Y)
",
    1,
);

// Scripts, and the replies to their commands.
const PURSUED: &[(Pieces, Pieces)] = &[
    // The robot is carried to a place that no kernel knows, and that happens once.
    (
        &[
            ("script 2\n", 1),
            PLACES,
            (
                "disturb 1 before -AT(A,X) +AT(A,Z)\npursue P AT(A,Y)\npursue Q AT(A,X)\n",
                1,
            ),
        ],
        &[
            ("noted 1\npursue P 2 searches\n  turn 1 nokernel\n", 1),
            (
                "  turn 2 kernel 1 MOVE(A,Z,Y) acted\n  turn 3 kernel 2 goal\n",
                1,
            ),
            (
                "pursue Q 1 searches\n  turn 1 kernel 1 MOVE(A,Y,X) acted\n  turn 2 kernel 2 goal\n",
                1,
            ),
        ],
    ),
    // It is taken away.
    (
        &[
            ("script 2\n", 1),
            PLACES,
            ("disturb 1 before -AT(A,X)\npursue P AT(A,Y)\n", 1),
        ],
        &[(
            "noted 1\npursue P 2 searches\n  turn 1 nokernel\n  exhausted\n",
            1,
        )],
    ),
    // The first search has too few nodes, and nothing happens.
    (
        &[
            ("script 2\n", 1),
            PLACES,
            (
                "nodes 2\ndisturb 1 before -AT(A,X)\npursue P AT(A,Y)\nplan Q AT(A,X)\n",
                1,
            ),
        ],
        &[
            (
                "noted 1\npursue P 1 searches\n  nodelimit 2 nodes 1 moves\n",
                1,
            ),
            ("plan Q 0 steps 0 moves\n", 1),
        ],
    ),
    // The robot of a building is carried to another room.
    (
        &[
            (
                "script 2\nbuilding\nroom R1\nroom R2\nroom R3\ndoor D1 R1 R2 open\n",
                1,
            ),
            (
                "door D2 R2 R3 open\nrobot R1\nend\ndisturb 1 before robot R3\npursue Q INROOM(ROBOT,R2)\n",
                1,
            ),
        ],
        &[
            ("noted 1\npursue Q 2 searches\n  turn 1 nokernel\n", 1),
            (
                "  turn 2 kernel 1 GOTHRU(D2,R3,R2) acted\n  turn 3 kernel 2 goal\n",
                1,
            ),
        ],
    ),
];

#[test]
fn plans_are_made_anew(rt: HostRuntime) -> Result<(), NoMemory> {
    let alloc = rt.alloc();
    for (script, replies) in PURSUED {
        assert!(&rt; answers(alloc, script, replies)?);
    }
    Ok(())
}
