//! Certificates: which are right, which aren't, and which inputs are none; reads and writes of which one fails, and a sink that is full.
use crate::runs::{NEVER, answered_with};
use crate::samples::joined;
use px_io::NoMemory;
use px_reader::Refused;
use px_run::Status;
use std::rt::HostRuntime;

/// The certificate of a plan that makes an atom from nothing, but for the row of its goal.
const MADE: &str =
    "planex certificate 1\nobjects 0\npredicates 1 0\naxioms 0\noperators 1\noperator 0\npre 0\ndelete 0\nadd 1 0\ntable 0\ngoal 0 1 0\nsteps 1\nstep 0\nrow 0\n";

/// The row of its goal.
const ROW: &str = "row 1 f 1 0 0\n";

/// What is said of it.
const YES: &str = "yes 0 parameters 1 steps\n";

/// Returns the status of a refusal of this line.
fn refused(line: u32) -> Status {
    Status::Refused(Refused {
        line,
        code: 13,
        limit: 0,
    })
}

#[test]
fn a_certificate_is_right_or_wrong_or_none(rt: HostRuntime) -> Result<(), NoMemory> {
    let alloc = rt.alloc();
    for (row, wanted, text) in [
        (ROW, Status::Done, YES),
        ("row 1 f 2 0 0\n", Status::Done, "no\n"),
        ("row 0\n", Status::Done, "no\n"),
        ("", refused(15), "refused line 15 code 13 limit 0\n"),
        (
            "row 1 f 1 0 0",
            refused(15),
            "refused line 15 code 13 limit 0\n",
        ),
        (
            "row 1 f 1 0 0\n\n",
            refused(16),
            "refused line 16 code 13 limit 0\n",
        ),
        (
            "row 1 f 01 0 0\n",
            refused(15),
            "refused line 15 code 13 limit 0\n",
        ),
    ] {
        let input = joined(alloc, &[(MADE, 1), (row, 1)])?;
        let (status, written) = answered_with(alloc, "check", input, 4096, 100, (NEVER, NEVER))?;
        assert!(&rt; status == wanted && written.as_slice() == text.as_bytes());
    }
    Ok(())
}

#[test]
fn nothing_and_a_script_are_no_certificate(rt: HostRuntime) -> Result<(), NoMemory> {
    let alloc = rt.alloc();
    for input in [
        "",
        "object a\n",
        "planex certificate 2\n",
        "planex certificate 1\r\n",
    ] {
        let bytes = input.as_bytes().to_vec(alloc)?;
        let (status, written) = answered_with(alloc, "check", bytes, 7, 100, (NEVER, NEVER))?;
        assert!(&rt; status == refused(1));
        assert!(&rt; written.as_slice() == b"refused line 1 code 13 limit 0\n".as_slice());
    }
    Ok(())
}

#[test]
fn each_read_of_a_certificate_and_the_write_may_fail(rt: HostRuntime) -> Result<(), NoMemory> {
    let alloc = rt.alloc();
    let certificate = joined(alloc, &[(MADE, 1), (ROW, 1)])?;
    // The last call finds the end.
    for call in 0..1000u32 {
        if call as usize <= certificate.len() {
            let (status, written) = answered_with(
                alloc,
                "check",
                certificate.clone()?,
                1,
                100,
                (call, NEVER),
            )?;
            assert!(&rt; status == Status::ReadFault && written.is_empty());
        }
    }
    let (status, written) = answered_with(
        alloc,
        "check",
        certificate.clone()?,
        1,
        100,
        (NEVER, 0),
    )?;
    assert!(&rt; status == Status::WriteFault && written.is_empty());
    for room in 0..YES.len() {
        let (status, written) = answered_with(
            alloc,
            "check",
            certificate.clone()?,
            4096,
            room,
            (NEVER, NEVER),
        )?;
        assert!(&rt; status == Status::WriteFault && written.as_slice() == &YES.as_bytes()[..room]);
    }
    Ok(())
}

#[test]
fn a_certificate_may_be_too_long(rt: HostRuntime) -> Result<(), NoMemory> {
    let alloc = rt.alloc();
    let input = joined(alloc, &[("################", 65_536), ("#", 1)])?;
    let (status, written) = answered_with(alloc, "check", input, 4096, 100, (NEVER, NEVER))?;
    assert!(&rt; status == Status::TooLong && written.is_empty());
    Ok(())
}
