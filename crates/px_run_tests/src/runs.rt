//! The program over memory.
ghost use Rattle.std.specs.Prelude.{◌^◌, ◌<◌, ◌≤◌, ◌-◌, Contains, IfOk};
ghost use Rattle.px_base.specs.Bounds.{u32_max};

use px_io::{MemSink, MemSource, NoMemory};
use px_run::{Status, planex_main};
use std::alloc::Global;

/// A call that never comes.
pub(crate) const NEVER: u32 = 1_000_000;

/// Returns the list of this one call.
fn only(alloc: Global, call: u32) -> Result<Vec<u32>, NoMemory>
    requires { call < u32_max }
    ensures { IfOk result (λ list. ¬ Contains list.items u32_max) }
{
    let mut list = Vec::new(alloc);
    list.extend_from_slice(&[call])?;
    Ok(list)
}

/// Returns the status of the program and what it wrote, where this is its only word, and this its input. At most `most` bytes of the input
/// come with a read, and the sink holds `room` bytes. The read and the write of these numbers fail.
pub(crate) fn answered_with(
    alloc: Global,
    word: &str,
    input: Vec<u8>,
    most: usize,
    room: usize,
    failing: (u32, u32),
) -> Result<(Status, Vec<u8>), NoMemory>
    requires most { 1 ≤ most }
    requires calls { (failing.0 < u32_max) × (failing.1 < u32_max) }
{
    let (read, write) = failing;
    let mut source = MemSource::new(input, most, only(alloc, read)?);
    let mut sink = MemSink::new(alloc, room, only(alloc, write)?)?;
    let status = planex_main(alloc, &[word], &mut source, &mut sink);
    Ok((status, sink.bytes().to_vec(alloc)?))
}

/// The same of `run`.
pub(crate) fn ran_with(
    alloc: Global,
    input: Vec<u8>,
    most: usize,
    room: usize,
    read: u32,
    write: u32,
) -> Result<(Status, Vec<u8>), NoMemory>
    requires most { 1 ≤ most }
    requires read { read < u32_max }
    requires write { write < u32_max }
{
    answered_with(alloc, "run", input, most, room, (read, write))
}

/// Returns the status of `run` and what it wrote, where no read and no write fails.
pub(crate) fn ran(alloc: Global, input: Vec<u8>) -> Result<(Status, Vec<u8>), NoMemory> {
    ran_with(alloc, input, 4096, 8192, NEVER, NEVER)
}

/// Returns the status of the program and what it wrote, where these are its words, and the input is empty.
pub(crate) fn called(alloc: Global, words: &[&str]) -> Result<(Status, Vec<u8>), NoMemory> {
    let mut source = MemSource::new(Vec::new(alloc), 1, Vec::new(alloc));
    let mut sink = MemSink::new(alloc, 100, Vec::new(alloc))?;
    let status = planex_main(alloc, words, &mut source, &mut sink);
    Ok((status, sink.bytes().to_vec(alloc)?))
}
