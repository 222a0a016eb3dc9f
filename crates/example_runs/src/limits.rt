use crate::cases::CONFIG;
use crate::given::{ran, ran_over, run_words};
use outside::MemShelf;
use sig_base::NoMemory;
use sigaudit::Status;
use std::alloc::Global;
use std::test::Fail;

const LONGEST: usize = 33_554_432;

// The stamp of a tenth of the window's first hour.
fn stamp(alloc: Global, tenth: u32) -> Result<String, Fail> {
    let (minute, second, part) = (tenth / 600, tenth / 10 % 60, tenth % 10);
    let text = format!(in alloc; "2024-03-04T06:{minute:02}:{second:02}.{part}")?;
    Ok(text)
}

// A line that blanks one tenth.
fn blank_line(alloc: Global, tenth: u16) -> Result<String, Fail> {
    let tenth = u32::from(tenth);
    let (from, to) = (stamp(alloc, tenth)?, stamp(alloc, tenth + 1)?);
    let text = format!(in alloc; "blank {from} {to}\n")?;
    Ok(text)
}

// A script that blanks every second tenth, 10,001 of them.
fn blanks(alloc: Global) -> Result<Vec<u8>, Fail> {
    let mut text = Vec::new(alloc);
    for n in 0..10_001u16 {
        text.extend_from_slice(blank_line(alloc, 2 * n)?.as_bytes())?;
    }
    Ok(text)
}

// What the run of that script prints.
fn answers(alloc: Global) -> Result<Vec<u8>, Fail> {
    let mut text = Vec::new(alloc);
    for n in 1..10_001u32 {
        let line = format!(in alloc; "{n} ok moved 0 1\n")?;
        text.extend_from_slice(line.as_bytes())?;
    }
    text.extend_from_slice(b"10001 refused too many blanks\n")?;
    Ok(text)
}

// How that run ends, where so many bytes may be written, and what it writes.
fn blanks_ran(alloc: Global, room: usize) -> Result<(Status, Vec<u8>), Fail> {
    let words = run_words(alloc)?;
    let mut shelf = MemShelf::new(alloc);
    shelf.add("c", CONFIG.as_bytes())?;
    shelf.add("s", &blanks(alloc)?)?;
    ran_over(alloc, &words, &mut shelf, room)
}

#[test]
fn ten_thousand_blanks_and_one_too_many(rt: HostRuntime) -> Result<(), Fail> {
    let alloc = rt.alloc();
    let wanted = answers(alloc)?;
    let (end, said) = blanks_ran(alloc, wanted.len())?;
    let found = (end, said.as_slice());
    assert_eq!(rt; found, (Status::SomeRefused, wanted.as_slice()));
    Ok(())
}

// A file of empty lines.
fn empty_lines(alloc: Global, count: usize) -> Result<Vec<u8>, NoMemory> {
    let mut text = Vec::with_capacity(alloc, count)?;
    for _ in 0..count {
        text.push(b'\n')?;
    }
    Ok(text)
}

// What comes of the load of a file of so many bytes.
fn loaded(alloc: Global, length: usize) -> Result<(Status, Vec<u8>), Fail> {
    let words = run_words(alloc)?;
    let file = empty_lines(alloc, length)?;
    let files = [
        ("c", CONFIG.as_bytes()),
        ("s", b"load 0 f\n".as_slice()),
        ("f", file.as_slice()),
    ];
    ran(alloc, &words, &files)
}

#[test]
fn the_longest_hour_file(rt: HostRuntime) -> Result<(), Fail> {
    for (length, status, text) in [
        (
            LONGEST + 1,
            Status::SomeRefused,
            "1 refused file too long\n",
        ),
        (LONGEST, Status::Done, "1 ok rows 0 repeats 0 moved 0 2\n"),
    ] {
        let (end, said) = loaded(rt.alloc(), length)?;
        let found = (end, said.as_slice());
        assert_eq!(rt; found, (status, text.as_bytes()));
    }
    Ok(())
}
