//! Which line of a text is the first wrong one, and what a right certificate claims.
use px_cert::{CertErr, read_cert, verify};
use std::alloc::Global;
use std::process::Abort;
use std::rt::HostRuntime;

/// A certificate up to its rows: of the plan of one step that adds the goal.
pub(crate) const FRONT: &str =
    "planex certificate 1\nobjects 0\npredicates 1 0\naxioms 0\noperators 1\noperator 0\npre 0\ndelete 0\nadd 1 0\ntable 0\ngoal 0 1 0\nsteps 1\nstep 0\n";

/// Returns the number of the first wrong line, or 0 if the text is a certificate; the greatest number where there is no memory.
pub(crate) fn first_bad(alloc: Global, text: &[u8]) -> u32 {
    match read_cert(alloc, text) {
        Ok(_) => 0,
        Err(CertErr::BadCert { line }) => line,
        Err(CertErr::NoMemory) => u32::MAX,
    }
}

/// Returns whether what the certificate claims is so; nothing for another text.
fn is_right(alloc: Global, text: &str) -> Option<bool> {
    match read_cert(alloc, text.as_bytes()) {
        Ok(cert) => Some(verify(&cert)),
        Err(_) => None,
    }
}

/// Returns the certificate with these rows.
fn with_rows(alloc: Global, rt: &impl Abort, rows: &str) -> String {
    let text = format!(in alloc; "{FRONT}{rows}");
    text.expect(rt, "memory")
}

#[test]
fn plan_is_right(rt: HostRuntime) {
    let right = with_rows(rt.alloc(), &rt, "row 0\nrow 1 f 1 0 0\n");
    assert!(&rt; matches!(is_right(rt.alloc(), &right), Some(true)));
}

#[test]
fn leaf_names_no_add(rt: HostRuntime) {
    for rows in ["row 0\nrow 1 f 1 1 0\n", "row 0\nrow 1 f 2 0 0\n"] {
        let wrong = with_rows(rt.alloc(), &rt, rows);
        assert!(&rt; matches!(is_right(rt.alloc(), &wrong), Some(false)));
    }
}

/// The texts of the rows, each with the number of the first wrong line.
const ROWS: [(&str, u32); 11] = [
    ("row 0\nrow 1 f 1 0 0\n", 0),
    ("row 0\nrow 1 f 1 0 0", 15),
    ("row 0\nrow 1 f 1 0 0\n\n", 16),
    ("row 0\nrow 1 f 1 0 0\r\n", 15),
    ("row 0\nrow 1  f 1 0 0\n", 15),
    ("row 0\nrow 1 f 01 0 0\n", 15),
    ("row 0\nrow 1 f 1 0 0 \n", 15),
    ("row 00\nrow 1 f 1 0 0\n", 14),
    ("row 0\nrow 1 f 9999 9999 0\n", 0),
    ("row 0\nrow 1 f 10000 0 0\n", 15),
    ("row 0\nrow 1 a 10000\n", 15),
];

#[test]
fn rows_have_their_form(rt: HostRuntime) {
    for (rows, line) in &ROWS {
        let text = with_rows(rt.alloc(), &rt, rows);
        assert!(&rt; first_bad(rt.alloc(), text.as_bytes()) == *line);
    }
}
