//! The program: what it is told on its command line, done on the files and streams of the system.
#![tactic(auto)]

use hipe_base::put;
use hipe_core::command;
use hipe_outside::{RealFiles, Stream};
use std::io::ErrorKind;
use std::process::ExitCode;
use std::string::String;
use std::{env, io};

/// The status for want of memory, and the line that tells of it.
const NO_MEMORY: u8 = 9;

const NO_MEMORY_LINE: &[u8] = b"hipe: want of memory\n";

fn main(rt: HostRuntime) -> ExitCode {
    let mut files = RealFiles::new(rt);
    let mut out = Stream::new(rt.stdout());
    let mut err = Stream::new(rt.stderr());
    let status = match words(&rt) {
        Ok(words) => command(rt.alloc(), words.as_slice(), &mut files, &mut out, &mut err),
        Err(error) if error.kind() == ErrorKind::OutOfMemory => {
            // a fault of standard error changes no status
            let _told = put(&mut err, NO_MEMORY_LINE);
            NO_MEMORY
        }
        // a word that is no text is a word of no command, and so is no word at all
        Err(_) => command(rt.alloc(), &[], &mut files, &mut out, &mut err),
    };
    ExitCode::from(status)
}

/// The words after the program's name. It fails with `OutOfMemory`, or with another kind where a word
/// is not UTF-8.
fn words(rt: &HostRuntime) -> io::Result<Vec<String>> {
    let mut args = env::args(rt)?;
    let _program = args.next();
    let mut words = Vec::new(rt.alloc());
    for word in args {
        words.push(word)?;
    }
    Ok(words)
}
