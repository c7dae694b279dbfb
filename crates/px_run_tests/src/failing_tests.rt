//! Reads and writes of which one fails, a sink that is full, and an input that is too long.
use crate::runs::{NEVER, ran, ran_with};
use crate::samples::{EXAMPLE, REPLIES, joined};
use px_io::NoMemory;
use px_run::Status;
use std::rt::HostRuntime;

#[test]
fn a_script_comes_in_pieces_and_each_read_may_fail(rt: HostRuntime) -> Result<(), NoMemory> {
    let alloc = rt.alloc();
    let script = joined(alloc, EXAMPLE)?;
    let text = joined(alloc, REPLIES)?;
    // The script has 606 bytes, and the last call finds its end.
    for call in 0..607u32 {
        let (status, written) = ran_with(alloc, script.clone()?, 1, 1000, call, NEVER)?;
        assert!(&rt; status == Status::ReadFault && written.is_empty());
    }
    for most in [1, 97] {
        let (status, written) = ran_with(alloc, script.clone()?, most, 1000, NEVER, NEVER)?;
        assert!(&rt; status == Status::Done && written.as_slice() == text.as_slice());
    }
    Ok(())
}

/// Each reply is written as a whole, and what came before it stands where its write fails.
#[test]
fn each_write_may_fail(rt: HostRuntime) -> Result<(), NoMemory> {
    let alloc = rt.alloc();
    let script = joined(alloc, EXAMPLE)?;
    for (call, _) in REPLIES.iter().enumerate() {
        let (status, written) = ran_with(alloc, script.clone()?, 4096, 1000, NEVER, call as u32)?;
        let before = joined(alloc, &REPLIES[..call])?;
        assert!(&rt; status == Status::WriteFault && written.as_slice() == before.as_slice());
    }
    Ok(())
}

// Two commands, and the replies.
const SHORT: (&str, &str) = (
    "object 室\npredicate P 1\nfact P(室)\nplan N P(室)\nfacts\n",
    "plan N 0 steps 0 moves\nfacts 1\n  P(室)\n",
);

/// What fits of the text is written, up to any byte.
#[test]
fn a_sink_may_be_full(rt: HostRuntime) -> Result<(), NoMemory> {
    let alloc = rt.alloc();
    let (script, replies) = SHORT;
    let script = script.as_bytes().to_vec(alloc)?;
    let whole = replies.as_bytes();
    for room in 0..whole.len() {
        let (status, written) = ran_with(alloc, script.clone()?, 4096, room, NEVER, NEVER)?;
        assert!(&rt; status == Status::WriteFault && written.as_slice() == &whole[..room]);
    }
    Ok(())
}

#[test]
fn a_mebibyte_is_read_and_no_more(rt: HostRuntime) -> Result<(), NoMemory> {
    let alloc = rt.alloc();
    let (status, written) = ran(alloc, joined(alloc, &[("################", 65_536)])?)?;
    assert!(&rt; status == Status::Done && written.is_empty());
    let (status, written) = ran(
        alloc,
        joined(alloc, &[("################", 65_536), ("#", 1)])?,
    )?;
    assert!(&rt; status == Status::TooLong && written.is_empty());
    Ok(())
}
