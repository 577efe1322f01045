//! The program flowvault: reads an IPFIX File (RFC 5655) from standard input and writes lines.
//!
//! `measure` writes the totals lines of the whole File or nothing, `dump` the lines of all messages before the first
//! fault; a refusal is that of the first fault by place.
#![tactic(auto)]

mod sources;

use crate::sources::VERSION;
use flow_commands::Progress;
use flow_program::run_line;
use std::env;
use std::io::{ErrorKind, IsTerminal};
use std::process::ExitCode;

/// The status where no memory was found.
const NO_MEMORY: u8 = 4;

/// The status where the words of the command line are not UTF-8.
const WRONG_LINE: u8 = 2;

fn main(rt: HostRuntime) -> ExitCode {
    let alloc = rt.alloc();
    let words: Vec<String> = match env::args(&rt) {
        Ok(args) => match args.collect(alloc) {
            Ok(words) => words,
            Err(_) => {
                let _ = rt.eprintln("flowvault: 11 OutOfMemory");
                return ExitCode::from(NO_MEMORY);
            }
        },
        Err(e) => {
            if e.kind() == ErrorKind::OutOfMemory {
                let _ = rt.eprintln("flowvault: 11 OutOfMemory");
                return ExitCode::from(NO_MEMORY);
            }
            let _ = rt.eprintln("flowvault: an argument is not UTF-8");
            return ExitCode::from(WRONG_LINE);
        }
    };
    let mut input = rt.stdin();
    let mut output = rt.stdout();
    let mut errors = rt.stderr();
    let progress = Progress::new(Some(rt.stderr()), errors.is_terminal());
    let status = run_line(
        &rt,
        VERSION,
        words.as_slice(),
        &mut input,
        &mut output,
        &mut errors,
        &progress,
    );
    ExitCode::from(status)
}
