//! Sources and sinks of bytes that count their faults, and the two calls that read and write whole texts.
//!
//! # Calling it
//!
//! - [`Source`] and [`Sink`] are the two ends of a program. Contracts see how often each has failed, and in some what it holds:
//!   of a source the bytes that are left, of a sink the bytes that were written.
//! - [`read_all`] reads a source to its end, and says if more bytes came than a limit. [`put`] writes a text whole.
//!   Each has one answer for a failed call, and that answer comes only where the count of faults rose. A count stops
//!   at the last value of 64 bits, and a count that stands there also counts as one that rose.
//! - [`MemSource`] and [`MemSink`] are ends in memory. Each is made with a list of the calls that fail, counted from 0;
//!   an end with an empty list never fails, but for a sink whose room is full. A source also gives at most a certain number of
//!   bytes at a call, so a test can cut a text anywhere.
//! - [`StdSource`] and [`StdSink`] stand over std's readers and writers, as `StdSource::new(rt.stdin())`. Their bytes are those of
//!   the reader and the writer, so it is proved that they hand these on, unchanged and in order, over every reader and writer
//!   that says which bytes they are (`Read::remaining`, `Write::contents`). std doesn't say it of standard input and output
//!   themselves: that these are the process's own bytes is trusted.
//! - The code does this, though no clause says so: `read_all` reads by pieces of 4,096 bytes, and no byte is kept back
//!   between two calls. `put`, `MemSource::new`, and each `read` and `write` take no memory of their own.
#![tactic(auto)]

mod causes;
mod memory_sink;
mod memory_source;
mod reading;
mod sink;
mod source;
mod standard;
#[cfg(test)]
mod tests;
mod writing;

pub use causes::{Failed, Fault};
pub use memory_sink::MemSink;
pub use memory_source::MemSource;
pub use px_base::NoMemory;
pub use reading::{ReadErr, read_all};
pub use sink::Sink;
pub use source::Source;
pub use standard::{StdSink, StdSource};
pub use writing::put;
