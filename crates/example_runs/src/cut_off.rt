use crate::cases::CONFIG;
use crate::given::{Mark, count_words, end_of, ran_over, run_words};
use outside::{MemShelf, MemSink};
use sig_base::{NoMemory, Reads};
use sigaudit::{Status, Words};
use std::alloc::Global;
use std::test::Fail;

const SCRIPT: &[u8] = b"measures\nunblank 2024-03-04T06:00:00 2024-03-04T08:00:00\nload 0 f\n";

const TEXT: &[u8] =
    b"1 measures\nheld 0 rows 0 known 0\nphase 2 services 0 least - greatest - sum 0 gap 0 max 0 force 0 unlogged 0 cycles 0 cycle_sum 0\n2 ok moved 0 2\n3 ok rows 0 repeats 0 moved 0 2\n";

// The configuration, a script that loads a file, and the file.
fn shelf_of_three(alloc: Global) -> Result<MemShelf, NoMemory> {
    let mut shelf = MemShelf::new(alloc);
    shelf.add("c", CONFIG.as_bytes())?;
    shelf.add("s", SCRIPT)?;
    shelf.add("f", b"")?;
    Ok(shelf)
}

// How the run ends in which the put of this number fails, and what was put before it.
fn cut_at(alloc: Global, put: u64) -> Result<(Status, Vec<u8>), Fail> {
    let words = run_words(alloc)?;
    let mut reads = Reads::new(Mark);
    let mut shelf = shelf_of_three(alloc)?;
    let mut sink = MemSink::new(alloc, 1000)?;
    sink.fail_put(put);
    let end = end_of(alloc, &words, &mut shelf, &mut sink, &mut reads);
    let mut text = Vec::new(alloc);
    text.extend_from_slice(sink.bytes())?;
    Ok((end, text))
}

// A put that fails ends the run, and what was put before it stays.
#[test]
fn each_put_fails(rt: HostRuntime) -> Result<(), Fail> {
    let mut before = 0;
    for put in 1..61u64 {
        let (end, written) = cut_at(rt.alloc(), put)?;
        let whole = written.len() == TEXT.len();
        let is_longer = whole || put == 1 || before < written.len();
        let found = (end, TEXT.starts_with(&written), is_longer);
        let wanted = if whole { Status::Done } else { Status::Fault };
        assert_eq!(rt; found, (wanted, true, true), "put {put}");
        before = written.len();
    }
    assert_eq!(rt; before, TEXT.len());
    Ok(())
}

// The third fetch is that of the hour file.
#[test]
fn the_third_fetch_fails(rt: HostRuntime) -> Result<(), Fail> {
    let alloc = rt.alloc();
    let words = run_words(alloc)?;
    let mut shelf = shelf_of_three(alloc)?;
    shelf.fail_call(3)?;
    let (end, said) = ran_over(alloc, &words, &mut shelf, 1000)?;
    let found = (end, said.as_slice());
    assert_eq!(rt;
        found,
        (
            Status::Fault,
            b"1 measures\nheld 0 rows 0 known 0\nphase 2 services 0 least - greatest - sum 0 gap 0 max 0 force 0 unlogged 0 cycles 0 cycle_sum 0\n2 ok moved 0 2\n".as_slice()
        )
    );
    Ok(())
}

// How two runs of these words end, one after the other, where the second fetch fails.
fn ends(alloc: Global, words: &Words, sink: &mut MemSink) -> Result<[Status; 2], Fail> {
    let mut shelf = MemShelf::new(alloc);
    shelf.fail_call(2)?;
    let mut reads = Reads::new(Mark);
    let first = end_of(alloc, words, &mut shelf, sink, &mut reads);
    Ok([first, end_of(alloc, words, &mut shelf, sink, &mut reads)])
}

const USAGE: &str =
    "usage: sigaudit --config C --script S [--rule K --at T] | --count F --signal ID --hour H | --pack F --signal ID --hour H | --demo N\n";

// A count of a file that isn't there, and then one whose fetch fails.
#[test]
fn a_missing_file_and_a_fault(rt: HostRuntime) -> Result<(), Fail> {
    let words = count_words(rt.alloc())?;
    let mut sink = MemSink::new(rt.alloc(), 140)?;
    let found = ends(rt.alloc(), &words, &mut sink)?;
    assert_eq!(rt;
        (found, sink.bytes().len()),
        ([Status::NoFile, Status::Fault], 0)
    );
    Ok(())
}

// No words, twice: the second time there is no room for the usage.
#[test]
fn words_that_ask_for_nothing(rt: HostRuntime) -> Result<(), Fail> {
    let words = Words::new(rt.alloc());
    let mut sink = MemSink::new(rt.alloc(), 140)?;
    let found = ends(rt.alloc(), &words, &mut sink)?;
    let wanted = ([Status::Usage, Status::Fault], USAGE.as_bytes());
    assert_eq!(rt; (found, sink.bytes()), wanted);
    Ok(())
}
