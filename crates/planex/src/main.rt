//! Plans by the rules of the STRIPS system.
//!
//! # Calling it
//!
//! - With the single word `run` the program reads a script from standard input, and writes the replies to its commands to standard
//!   output. With the words `demo ROOMS SEED` it makes the script of `px_demo`, answers its commands, and writes one line that sums up
//!   the replies. With the single word `check` it reads a certificate from standard input, and writes whether it is right. Every other
//!   list of words is answered by how the program is called. The exit status is that of `Status::exit`.
//! - All that it does but for opening its streams is [`px_run::planex_main`], whose contract says what is written and how it ends. It is
//!   called with a [`StdSource`] over standard input and a [`StdSink`] over standard output. That these two
//!   streams give and take the process's bytes is trusted.
#![tactic(auto)]

use px_io::{StdSink, StdSource};
use px_run::{Status, planex_main};
use std::process::ExitCode;
use std::{env, io};

/// Returns the words of the command line, without the program's name.
fn words(rt: &HostRuntime) -> io::Result<Vec<String>> {
    let mut words = Vec::new(rt.alloc());
    for word in env::args(rt)?.skip(1) {
        words.push(word)?;
    }
    Ok(words)
}

fn main(rt: HostRuntime) -> ExitCode {
    let alloc = rt.alloc();
    let owned = match words(&rt) {
        Ok(owned) => owned,
        Err(error) if error.kind() == io::ErrorKind::OutOfMemory => return Status::NoMemory.exit(),
        Err(_) => return Status::Usage.exit(),
    };
    let mut lent = Vec::new(alloc);
    for word in &owned {
        if lent.push(word.as_str()).is_err() {
            return Status::NoMemory.exit();
        }
    }
    let mut source = StdSource::new(rt.stdin());
    let mut sink = StdSink::new(rt.stdout());
    planex_main(alloc, &lent, &mut source, &mut sink).exit()
}
