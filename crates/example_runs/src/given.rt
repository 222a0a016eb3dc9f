use outside::{MemShelf, MemSink};
use sig_base::{NoMemory, Reads};
use sigaudit::{Status, Words, run};
use std::alloc::Global;
use std::test::Fail;

/// The mark of the rows of these tests.
#[derive(Drop)]
pub struct Mark;

/// The words of a count of the file f.
pub fn count_words(alloc: Global) -> Result<Words, NoMemory> {
    let mut words = Words::new(alloc);
    for word in ["--count", "f", "--signal", "7", "--hour", "2024-03-04T06"] {
        words.push(word)?;
    }
    Ok(words)
}

/// The words of a run of the script s with the configuration c.
pub fn run_words(alloc: Global) -> Result<Words, NoMemory> {
    let mut words = Words::new(alloc);
    for word in ["--config", "c", "--script=s"] {
        words.push(word)?;
    }
    Ok(words)
}

/// How a run ends.
pub fn end_of(
    alloc: Global,
    words: &Words,
    shelf: &mut MemShelf,
    sink: &mut MemSink,
    reads: &mut Reads<Mark>,
) -> Status {
    run(alloc, words, shelf, sink, reads)
}

/// How a run over this shelf ends, and what it writes, which is at most so long.
pub fn ran_over(
    alloc: Global,
    words: &Words,
    shelf: &mut MemShelf,
    room: usize,
) -> Result<(Status, Vec<u8>), Fail> {
    let mut sink = MemSink::new(alloc, room)?;
    let mut reads = Reads::new(Mark);
    let status = end_of(alloc, words, shelf, &mut sink, &mut reads);
    let mut text = Vec::new(alloc);
    text.extend_from_slice(sink.bytes())?;
    Ok((status, text))
}

/// The same over files of these names.
pub fn ran(
    alloc: Global,
    words: &Words,
    files: &[(&str, &[u8])],
) -> Result<(Status, Vec<u8>), Fail> {
    let mut shelf = MemShelf::new(alloc);
    for (name, bytes) in files {
        shelf.add(name, bytes)?;
    }
    ran_over(alloc, words, &mut shelf, 2000)
}

/// How the run of a script over the files f and g ends, and what it writes.
pub fn script_ran(
    alloc: Global,
    config: &str,
    script: &str,
    files: [&str; 2],
) -> Result<(Status, Vec<u8>), Fail> {
    let words = run_words(alloc)?;
    let files = [
        ("c", config.as_bytes()),
        ("s", script.as_bytes()),
        ("f", files[0].as_bytes()),
        ("g", files[1].as_bytes()),
    ];
    ran(alloc, &words, &files)
}
