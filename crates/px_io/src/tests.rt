//! Sources and sinks over memory, byte by byte, and the standard streams.
ghost use Rattle.std.specs.Prelude.{◌≡◌, IfOk};

use crate::{MemSink, MemSource, NoMemory, ReadErr, StdSink, StdSource, put, read_all};
use std::alloc::Global;
use std::rt::HostRuntime;

// Returns a list of the numbers.
fn listed(alloc: Global, numbers: &[u32]) -> Result<Vec<u32>, NoMemory>
    ensures { IfOk result (λ list. list.items ≡ numbers.now) }
{
    let mut list = Vec::new(alloc);
    list.extend_from_slice(numbers)?;
    Ok(list)
}

// Returns a source of "abcd" that gives a byte at a read, and of which the read of number `failing` fails.
fn byte_by_byte(alloc: Global, failing: u8) -> Result<MemSource, NoMemory> {
    let bytes = b"abcd".to_vec(alloc)?;
    Ok(MemSource::new(bytes, 1, listed(alloc, &[u32::from(failing)])?))
}

#[test]
fn a_source_is_read_to_its_end_within_the_limit(rt: HostRuntime) -> Result<(), NoMemory> {
    let alloc = rt.alloc();
    let bytes = read_all(alloc, &mut byte_by_byte(alloc, 5)?, 4);
    assert!(&rt; bytes.is_ok_and(|bytes| bytes.as_slice() == b"abcd".as_slice()));
    let bytes = read_all(alloc, &mut byte_by_byte(alloc, 5)?, 3);
    assert!(&rt; bytes.is_err_and(|error| error == ReadErr::TooLong));
    let bytes = read_all(alloc, &mut byte_by_byte(alloc, 3)?, 3);
    assert!(&rt; bytes.is_err_and(|error| error == ReadErr::Fault));
    Ok(())
}

#[test]
fn a_text_is_put_whole_or_in_front(rt: HostRuntime) -> Result<(), NoMemory> {
    let alloc = rt.alloc();
    let mut sink = MemSink::new(alloc, 5, listed(alloc, &[2])?)?;
    assert!(&rt; put(&mut sink, b"abc").is_ok());
    assert!(&rt; put(&mut sink, b"").is_ok());
    assert!(&rt; put(&mut sink, b"def").is_err());
    assert!(&rt; sink.bytes() == b"abcde".as_slice());
    Ok(())
}

#[test]
fn the_standard_streams_hand_bytes_on(rt: HostRuntime) -> Result<(), NoMemory> {
    let alloc = rt.alloc();
    let mut source = StdSource::new(b"abcd".as_slice());
    let bytes = read_all(alloc, &mut source, 4);
    assert!(&rt; matches!(&bytes, Ok(bytes) if bytes.as_slice() == b"abcd".as_slice()));
    let mut kept = Vec::new(alloc);
    let mut sink = StdSink::new(&mut kept);
    assert!(&rt; put(&mut sink, b"the output").is_ok());
    assert!(&rt; kept.as_slice() == b"the output".as_slice());
    Ok(())
}
