//! Texts by their pieces, and the example of 1972.
use px_io::NoMemory;
use std::alloc::Global;
use std::fmt::Write;

/// The pieces of a text, each with how often it stands; an @ of a piece is the number of the time, from 0.
pub(crate) type Pieces = &'static [(&'static str, u32)];

/// Returns the text of the pieces.
pub(crate) fn joined(alloc: Global, pieces: &[(&str, u32)]) -> Result<Vec<u8>, NoMemory> {
    let mut text = String::new(alloc);
    for (piece, times) in pieces {
        for time in 0..*times {
            for character in piece.chars() {
                match character {
                    '@' => write!(text, "{time}")?,
                    _ => text.push(character)?,
                }
            }
        }
    }
    Ok(text.into_bytes())
}

/// The first lines of the example of 1972: a robot, a box and three rooms.
pub(crate) const BEGINNING: &str = "object ROBOT R1 R2 R3 D1 D2 B1
predicate INROOM 2
predicate CONNECTS 3
predicate BOX 1
axiom ~CONNECTS(?d,?x,?y) CONNECTS(?d,?y,?x)
operator GOTHRU(d,r1,r2)
";

/// The lines that follow.
pub(crate) const REST: &str = "pre INROOM(ROBOT,r1) CONNECTS(d,r1,r2)
delete INROOM(ROBOT,$)
add INROOM(ROBOT,r2)
end
operator PUSHTHRU(b,d,r1,r2)
pre INROOM(b,r1) INROOM(ROBOT,r1) CONNECTS(d,r1,r2)
delete INROOM(ROBOT,$) INROOM(b,$)
add INROOM(ROBOT,r2) INROOM(b,r2)
end
fact INROOM(ROBOT,R1) CONNECTS(D1,R1,R2) CONNECTS(D2,R2,R3)
fact BOX(B1) INROOM(B1,R2)
plan P1 BOX(?x) INROOM(?x,R1)
";

/// The example with a table that is shown, learned, and run on against a disturbance.
pub(crate) const EXAMPLE: Pieces = &[
    (BEGINNING, 1),
    (REST, 1),
    ("show P1\n", 1),
    ("learn M1 from P1\n", 1),
    ("disturb 2 before -INROOM(ROBOT,R2) +INROOM(ROBOT,R1)\n", 1),
    ("run M1 p6=R1\n", 1),
];

/// The replies to its commands.
pub(crate) const REPLIES: Pieces = &[
    (
        "plan P1 2 steps 4 moves
  1 GOTHRU(D1,R1,R2)
  2 PUSHTHRU(B1,D1,R2,R1)
",
        1,
    ),
    (
        "table P1 0 parameters 2 steps
row 1 GOTHRU(D1,R1,R2)
  0 INROOM(ROBOT,R1)
  0 CONNECTS(D1,R1,R2)
row 2 PUSHTHRU(B1,D1,R2,R1)
  0 INROOM(B1,R2)
  1 INROOM(ROBOT,R2)
  0 CONNECTS(D1,R1,R2)
row 3 goal BOX(?1) INROOM(?1,R1)
  0 BOX(B1)
  2 INROOM(B1,R1)
",
        1,
    ),
    ("learned M1 6 parameters 2 steps\n", 1),
    ("noted 1\n", 1),
    (
        "run M1
  turn 1 kernel 1 GOTHRU(D1,R1,R2) acted
  turn 2 kernel 1 GOTHRU(D1,R1,R2) acted
  turn 3 kernel 2 PUSHTHRU(B1,D1,R2,R1) acted
  turn 4 kernel 3 goal
",
        1,
    ),
];
