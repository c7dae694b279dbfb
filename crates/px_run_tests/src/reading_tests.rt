//! Which texts are scripts, and where and why others are refused: tables of small and of long texts, with what comes of each.
use crate::runs::ran;
use crate::samples::{BEGINNING, Pieces, joined};
use px_io::NoMemory;
use px_reader::Refused;
use px_run::Status;
use std::alloc::Global;
use std::process::Abort;
use std::rt::HostRuntime;

// Line, code and limit of the first fault, or no line where the text is read.
type Outcome = (u32, u8, u8);

const READ: Outcome = (0, 0, 0);

// Bytes that belong to no character, also after other faults.
const NO_TEXTS: &[(&[u8], Outcome)] = &[
    (b"\xff", (1, 1, 0)),
    (b"object a\n\xff", (2, 1, 0)),
    (b"fly\nobject a \xc3(", (2, 1, 0)),
    (b"# \xc3\nfly", (1, 1, 0)),
    (b"object a\n# \xe2\x82", (2, 1, 0)),
    (b"\n\n\xed\xa0\x80\n", (3, 1, 0)),
];

// A text and its outcome.
const TEXTS: &[(&str, Outcome)] = &[
    // Characters that begin no token.
    ("object a;", (1, 2, 0)),
    ("predicate P 1a", (1, 2, 0)),
    ("object a\npredicate P 1\nplan N P(? x)", (3, 2, 0)),
    ("object a\npredicate P 1\nplan N P(?1)", (3, 2, 0)),
    ("object a\rb", (1, 2, 0)),
    ("object a\r\r\n", (1, 2, 0)),
    ("object a\n\u{feff}object b", (2, 2, 0)),
    ("object\u{a0}a", (1, 2, 0)),
    ("object\u{b}a", (1, 2, 0)),
    // Rests that do not have the form of their word.
    ("script", (1, 2, 0)),
    ("script one", (1, 2, 0)),
    ("object", (1, 2, 0)),
    ("object 9", (1, 2, 0)),
    ("object ?a", (1, 2, 0)),
    ("object a,", (1, 2, 0)),
    ("predicate P", (1, 2, 0)),
    ("predicate P 1 2", (1, 2, 0)),
    ("operator", (1, 2, 0)),
    ("operator A()", (1, 2, 0)),
    ("operator A(x", (1, 2, 0)),
    ("operator A(x,)", (1, 2, 0)),
    // First tokens that are no words.
    ("fly R1", (1, 3, 0)),
    ("obj", (1, 3, 0)),
    ("Object a", (1, 3, 0)),
    ("9 a", (1, 3, 0)),
    // Names that no earlier line declares in the kind of their place.
    ("fact P(a)", (1, 4, 0)),
    ("object a\nfact P(a)", (2, 4, 0)),
    ("disturb 1 before +P", (1, 4, 0)),
    ("run N", (1, 4, 0)),
    ("object a\npredicate P 1\nfact P(c)", (3, 4, 0)),
    // Names that are declared twice.
    ("object a a", (1, 5, 0)),
    ("object a\nobject b a", (2, 5, 0)),
    // Numbers of arguments.
    ("object a\npredicate P 1\nfact P(a,a)", (3, 6, 0)),
    // Limits on numbers.
    ("predicate P 7", (1, 8, 4)),
    ("predicate P 99999999999999999999", (1, 8, 4)),
    ("script 4", (1, 8, 16)),
    ("script 0", (1, 8, 16)),
    // Declarations after a command.
    ("facts\nobject a", (2, 9, 0)),
    // Lines of a block outside it, and other lines inside.
    ("predicate P 0\npre P", (2, 9, 0)),
    ("predicate P 0\ndelete P", (2, 9, 0)),
    ("predicate P 0\nadd P", (2, 9, 0)),
    // An input that ends inside a block.
    ("operator A", (1, 10, 0)),
    ("object a\n\n# A\noperator A(x)\n\n# no end\n", (4, 10, 0)),
    // Names of results that no line gives, and of a predicate.
    ("learn M from N", (1, 4, 0)),
    ("disturb 1 before +P", (1, 4, 0)),
    ("run N", (1, 4, 0)),
    // Two faults in one line: the order of the causes.
    ("fly %", (1, 2, 0)),
    ("fly (", (1, 3, 0)),
    ("operator A\nobject", (2, 2, 0)),
    ("show", (1, 2, 0)),
    // Texts that are read.
    ("", READ),
    ("\n\n \t\n# fly \u{e9}\n#", READ),
    ("\u{feff}script 1", READ),
    ("\r\n# \r\nscript 001\r\nobject a\r", READ),
    (
        "object object\npredicate object 1\nfact object(object)#(",
        READ,
    ),
    ("object a\noperator A(x)\nend\nobject x", READ),
    ("object _ a1 \u{5ba4}_1", READ),
    ("object a\npredicate P 2\nfact\tP ( a , a )P(a,a)", READ),
    ("predicate P 6\nnodes 50000", READ),
    (
        "object a\npredicate P 1\naxiom ~P(?x) P(a)\nheight 3\nshapes 9\nplan N P(?x) P(a)\nshow N",
        READ,
    ),
    (
        "object a\npredicate P 1\noperator A(x)\nend\noperator B(x)\ndelete P($)P(a)\nend",
        READ,
    ),
];

// Texts of buildings, as a plain program that was written from the same rules answers.
const BUILDINGS: &[(&str, Outcome)] = &[
    ("script 1\nbuilding\nroom R\nrobot R\nend\nheight 3", READ),
    (
        "building # of rooms\nroom R # one\n\nrobot R\nend # done",
        READ,
    ),
    ("building\nrobot R\nroom R\nend", (2, 4, 0)),
    (
        "building\nroom R\nroom S\ndoor D R S closed\nbox B S\nrobot R\nend\nplan GOTOB INROOM(?x,S) BOX(?x)",
        READ,
    ),
    (
        "building\nroom INROOM\nrobot INROOM\nend\nplan OPEN ROOM(INROOM)",
        READ,
    ),
    // Lines of the block outside it, and other lines inside.
    ("room R", (1, 9, 0)),
    ("building\nroom R\nfact P", (3, 9, 0)),
    ("building\nroom R\nrobot R\nend\nroom S", (5, 9, 0)),
    ("building\nbuilding", (2, 9, 0)),
    // Either a building or declarations.
    ("object a\nbuilding", (2, 9, 0)),
    ("predicate P 0\nbuilding", (2, 9, 0)),
    ("operator A\nend\nbuilding", (3, 9, 0)),
    ("building\nroom R\nrobot R\nend\nfact ROOM(R)", (5, 9, 0)),
    ("building\nroom R\nrobot R\nend\naxiom ROOM(R)", (5, 9, 0)),
    ("facts\nbuilding", (2, 9, 0)),
    ("building\nroom R\nrobot R\nend\nbuilding", (5, 5, 0)),
    // Names of other kinds, and names that are declared twice.
    ("building\nroom ROBOT", (2, 5, 0)),
    ("building\nroom R\nbox R R", (3, 5, 0)),
    ("building\nroom R\ndoor D R R open", (3, 5, 0)),
    ("building\nroom R\ndoor D ROBOT R open", (3, 4, 0)),
    ("building\nroom R\nbox B R\ndoor D R B open", (4, 4, 0)),
    ("building\nroom R\nrobot R\nrobot R", (4, 5, 0)),
    ("building\nroom R\ndoor D R R ajar", (3, 2, 0)),
    // The end of a block.
    ("building\nroom R\nend", (3, 9, 0)),
    ("building\nroom R\nrobot R\n", (1, 10, 0)),
    // What the building gives.
    (
        "building\nroom R\nrobot R\nend\nplan N INROOM(ROBOT)",
        (5, 6, 0),
    ),
    ("building\nroom R\nrobot R\nend\nplan N AT(R)", (5, 4, 0)),
    // Edits of things.
    (
        "building\nroom R\nrobot R\nend\ndisturb 1 before robot R",
        READ,
    ),
    (
        "building\nroom R\nrobot R\nend\ndisturb 1 before +ROOM(R)",
        (5, 2, 0),
    ),
    (
        "building\nroom R\nrobot R\nend\ndisturb 1 before door R open",
        (5, 4, 0),
    ),
];

// Texts by their pieces.
const LONG_TEXTS: &[(Pieces, Outcome)] = &[
    // The example of 1972, cut off.
    (&[(BEGINNING, 1)], (6, 10, 0)),
    (&[(BEGINNING, 1), ("pre INROOM(ROBOT,", 1)], (7, 2, 0)),
    (&[("object ", 1), ("a", 64)], READ),
    (&[("object ", 1), ("a", 65)], (1, 8, 1)),
    (&[("object ", 1), ("\u{e9}", 32)], READ),
    (&[("operator ", 1), ("a", 65)], (1, 8, 1)),
    (&[("object", 1), (" o@", 256)], READ),
    (&[("object", 1), (" o@", 257)], (1, 8, 2)),
    (&[("predicate P@ 0\n", 65)], (65, 8, 3)),
    (&[("operator A@\nend\n", 33)], (65, 8, 8)),
    (&[("predicate P 0\nplan N", 1), (" P", 16)], READ),
    (&[("predicate P 0\nplan N", 1), (" P", 17)], (2, 8, 12)),
    (&[("predicate P 0\nfact", 1), (" P", 600)], READ),
    (
        &[("building\n", 1), ("room r@\n", 255), ("robot r0\nend", 1)],
        READ,
    ),
    (&[("building\n", 1), ("room r@\n", 256)], (257, 8, 2)),
    (&[("facts\n", 512)], READ),
    (&[("facts\n", 513)], (513, 8, 13)),
    // Facts are counted once, over all lines.
    (
        &[
            ("object", 1),
            (" o@", 256),
            ("\npredicate P 1\npredicate Q 1\nfact", 1),
            (" P(o@) Q(o@)", 256),
            ("\nfact P(o0) Q(o255)", 1),
        ],
        READ,
    ),
    (
        &[
            ("object", 1),
            (" o@", 256),
            ("\npredicate P 1\npredicate Q 1\npredicate R 0\nfact", 1),
            (" P(o@) Q(o@)", 256),
            ("\nfact P(o0) R", 1),
        ],
        (6, 8, 11),
    ),
    // Many lines, long names, long lines.
    (&[("\n", 70_000), ("fly", 1)], (70_001, 3, 0)),
    (&[("object ", 1), ("a", 10_000)], (1, 8, 1)),
    (&[("predicate P 0\nfact", 1), (" P", 10_000)], READ),
];

/// Returns the outcome of the bytes, where the refusal is also written.
fn outcome(alloc: Global, bytes: Vec<u8>) -> Result<Outcome, NoMemory> {
    let (status, written) = ran(alloc, bytes)?;
    let Refused { line, code, limit } = match status {
        Status::Done => return Ok(READ),
        Status::Refused(refused) => refused,
        _ => return Ok((0, 255, 0)),
    };
    let text = format!(in alloc; "refused line {line} code {code} limit {limit}\n")?;
    if written.as_slice() == text.as_bytes() {
        Ok((line, code, limit))
    } else {
        Ok((line, 255, 0))
    }
}

fn check_no_texts(
    rt: &impl Abort,
    alloc: Global,
    texts: &[(&[u8], Outcome)],
) -> Result<(), NoMemory> {
    for (row, (text, wanted)) in texts.iter().enumerate() {
        assert_eq!(rt;
            outcome(alloc, text.to_vec(alloc)?)?,
            *wanted,
            "no text {row}"
        );
    }
    Ok(())
}

fn check_texts(rt: &impl Abort, alloc: Global, texts: &[(&str, Outcome)]) -> Result<(), NoMemory> {
    for (row, (text, wanted)) in texts.iter().enumerate() {
        assert_eq!(rt;
            outcome(alloc, text.as_bytes().to_vec(alloc)?)?,
            *wanted,
            "text {row}"
        );
    }
    Ok(())
}

fn check_long_texts(
    rt: &impl Abort,
    alloc: Global,
    texts: &[(Pieces, Outcome)],
) -> Result<(), NoMemory> {
    for (row, (pieces, wanted)) in texts.iter().enumerate() {
        assert_eq!(rt;
            outcome(alloc, joined(alloc, pieces)?)?,
            *wanted,
            "long text {row}"
        );
    }
    Ok(())
}

#[test]
fn a_text_is_read_or_has_its_first_fault(rt: HostRuntime) -> Result<(), NoMemory> {
    let alloc = rt.alloc();
    check_no_texts(&rt, alloc, NO_TEXTS)?;
    check_texts(&rt, alloc, TEXTS)?;
    check_texts(&rt, alloc, BUILDINGS)?;
    check_long_texts(&rt, alloc, LONG_TEXTS)
}
