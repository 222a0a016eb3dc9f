use crate::cases::{CONFIG, COUNTED, SCRIPTS};
use crate::given::{Mark, count_words, end_of, ran, run_words};
use outside::{MemShelf, MemSink};
use sig_base::Reads;
use sigaudit::{Status, Words};
use std::alloc::Global;
use std::test::Fail;

// How the count of a file ends, and whether it writes this.
fn counted(
    alloc: Global,
    words: &Words,
    file: &str,
    text: &str,
    reads: &mut Reads<Mark>,
) -> Result<(Status, bool), Fail> {
    let mut shelf = MemShelf::new(alloc);
    shelf.add("f", file.as_bytes())?;
    let mut sink = MemSink::new(alloc, 1000)?;
    let end = end_of(alloc, words, &mut shelf, &mut sink, reads);
    Ok((end, sink.bytes() == text.as_bytes()))
}

// The hours of the three that aren't refused are opened, once each.
#[test]
fn files_are_counted_or_refused(rt: HostRuntime) -> Result<(), Fail> {
    let words = count_words(rt.alloc())?;
    let mut reads = Reads::new(Mark);
    for (file, status, text) in COUNTED {
        let end = counted(rt.alloc(), &words, file, text, &mut reads)?;
        assert_eq!(rt; end, (status, true), "of {file}");
    }
    assert_eq!(rt; reads.count(0), 3);
    Ok(())
}

const TWICE: &[u8] = b"7,2024-03-04 06:00:30.5,8,2\n7,2024-03-04 06:00:30.5,8,2\n";

#[test]
fn a_script_of_edits(rt: HostRuntime) -> Result<(), Fail> {
    let words = run_words(rt.alloc())?;
    for (config, script, status, text) in SCRIPTS {
        let files = [
            ("c", config.as_bytes()),
            ("s", script.as_bytes()),
            ("e", b"".as_slice()),
            ("f", TWICE),
        ];
        let (end, said) = ran(rt.alloc(), &words, &files)?;
        let found = (end, said.as_slice());
        assert_eq!(rt; found, (status, text.as_bytes()), "of {script}");
    }
    Ok(())
}
