//! The program `sigaudit`: gives the words of the command line, the file system and standard output
//! to the call `run` of the crate `sigaudit`, which does all the work, and ends with its status.
#![tactic(auto)]

use outside::{DiskShelf, OutSink};
use sig_base::Reads;
use sigaudit::{Words, exit_code, run};
use std::env;
use std::io::{self, ErrorKind};
use std::process::ExitCode;

// The mark of the rows of this program.
#[derive(Drop)]
struct Mark;

enum Start {
    Ready(Words),
    Usage,
    Memory,
}

// The words of the command line. One that is no text makes them a faulty command line.
fn words_of(rt: &HostRuntime) -> Start {
    let mut words = Words::new(rt.alloc());
    let all = match env::args(rt) {
        Ok(all) => all,
        Err(error) if error.kind() == ErrorKind::OutOfMemory => return Start::Memory,
        Err(_) => return Start::Usage,
    };
    for word in all.skip(1) {
        if words.push(word.as_str()).is_err() {
            return Start::Memory;
        }
    }
    Start::Ready(words)
}

fn main(rt: HostRuntime) -> ExitCode {
    let words = match words_of(&rt) {
        Start::Ready(words) => words,
        Start::Usage => Words::new(rt.alloc()),
        Start::Memory => return ExitCode::from(5),
    };
    let mut shelf = DiskShelf::new(&rt);
    let mut sink = OutSink::new(io::writer(&rt));
    let mut reads = Reads::new(Mark);
    ExitCode::from(exit_code(run(rt.alloc(), &words, &mut shelf, &mut sink, &mut reads)))
}
