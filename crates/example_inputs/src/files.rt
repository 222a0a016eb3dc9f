use outside::{
    DiskShelf, FetchError, MemShelf, MemSink, OutSink, PutFailed, Shelf, Sink, put_parts,
};
use sig_base::NoMemory;
use std::alloc::Global;
use std::test::Fail;
use std::{fs, io};

// Takes one byte at a time, and none once it is full.
#[derive(Drop)]
struct Narrow {
    bytes: [u8; 7],
    used: usize,
}

impl io::Write for &mut Narrow {
    fn write(&mut self, bytes: &[u8]) -> io::Result<usize> {
        let Some(first) = bytes.first() else {
            return Ok(0);
        };
        if self.used >= 7 {
            return Ok(0);
        }
        self.bytes[self.used] = *first;
        self.used += 1;
        Ok(1)
    }

    fn flush(&mut self) -> io::Result<()> {
        Ok(())
    }
}

// What a fetch of this file of at most so many bytes answers, and what it adds.
fn fetched<S: Shelf>(
    alloc: Global,
    shelf: &mut S,
    name: &str,
    limit: u64,
) -> Result<(Result<(), FetchError>, Vec<u8>), NoMemory> {
    let mut into = Vec::new(alloc);
    into.extend_from_slice(b"# ")?;
    let answer = shelf.fetch(alloc, name, limit, &mut into);
    Ok((answer, into))
}

#[test]
fn files_of_the_disk(rt: HostRuntime) -> Result<(), Fail> {
    fs::write(&rt, "h06.csv", "7,2024-03-04 06:00:00.0,1,2\n")?;
    let mut shelf = DiskShelf::new(&rt);
    for (name, limit, wanted, text) in [
        ("h06.csv", 27, Err(FetchError::TooLong), "# "),
        ("h07.csv", 28, Err(FetchError::Missing), "# "),
        (".", 28, Err(FetchError::Failed), "# "),
        ("h06.csv", 28, Ok(()), "# 7,2024-03-04 06:00:00.0,1,2\n"),
    ] {
        let (answer, into) = fetched(rt.alloc(), &mut shelf, name, limit)?;
        let found = (answer, into.as_slice());
        assert_eq!(rt; found, (wanted, text.as_bytes()), "of {name}");
    }
    Ok(())
}

// The byte with this place of a pattern that no buffer's length is a multiple of.
fn pattern(place: usize) -> u8 {
    (place % 251) as u8
}

fn counted(alloc: Global, length: usize) -> Result<Vec<u8>, NoMemory> {
    let mut bytes = Vec::with_capacity(alloc, length)?;
    for place in 0..length {
        bytes.push(pattern(place))?;
    }
    Ok(bytes)
}

// Whether the bytes are the first of the pattern, so many.
fn are_counted(bytes: &[u8], length: usize) -> bool {
    bytes.len() == length && (0..length).all(|place| bytes[place] == pattern(place))
}

// Whether the file, which has so many bytes of the pattern, is fetched whole with this limit, or
// refused where it is longer, and then nothing is added.
fn is_fetched_whole(
    alloc: Global,
    shelf: &mut impl Shelf,
    length: usize,
    limit: usize,
) -> Result<bool, NoMemory> {
    let mut into = Vec::new(alloc);
    let answer = shelf.fetch(alloc, "counted", limit as u64, &mut into);
    if length <= limit {
        return Ok(answer == Ok(()) && are_counted(&into, length));
    }
    Ok(answer == Err(FetchError::TooLong) && into.is_empty())
}

// A file is read by pieces of 16,384 bytes.
#[test]
fn files_of_several_pieces(rt: HostRuntime) -> Result<(), Fail> {
    let mut shelf = DiskShelf::new(&rt);
    for length in [0, 1, 16_383, 16_384, 16_385, 33_333] {
        fs::write(&rt, "counted", counted(rt.alloc(), length)?.as_slice())?;
        for limit in [length.max(1) - 1, length, length + 1] {
            let is = is_fetched_whole(rt.alloc(), &mut shelf, length, limit)?;
            assert!(rt; is, "of {length} bytes with the limit {limit}");
        }
    }
    Ok(())
}

// Takes so many bytes at a time.
#[derive(Drop)]
struct Pieces {
    bytes: Vec<u8>,
    most: usize,
}

impl io::Write for &mut Pieces {
    fn write(&mut self, bytes: &[u8]) -> io::Result<usize> {
        let count = bytes.len().min(self.most);
        if self.bytes.extend_from_slice(&bytes[..count]).is_err() {
            return Ok(0);
        }
        Ok(count)
    }

    fn flush(&mut self) -> io::Result<()> {
        Ok(())
    }
}

// Whether a writer that takes so many bytes at a time gets all of the pattern.
fn is_written_whole(alloc: Global, length: usize, most: usize) -> Result<bool, NoMemory> {
    let text = counted(alloc, length)?;
    let mut pieces = Pieces {
        bytes: Vec::new(alloc),
        most,
    };
    let mut sink = OutSink::new(&mut pieces);
    let done = sink.put(&text).is_ok();
    Ok(done && are_counted(&pieces.bytes, length))
}

#[test]
fn a_writer_that_takes_pieces(rt: HostRuntime) -> Result<(), NoMemory> {
    for most in [1, 2, 3, 7, 8_192, 40_000] {
        let is = is_written_whole(rt.alloc(), 33_333, most)?;
        assert!(rt; is, "of {most} bytes at a time");
    }
    Ok(())
}

#[test]
fn a_writer_that_fills_up(rt: HostRuntime) {
    let mut narrow = Narrow {
        bytes: [0; 7],
        used: 0,
    };
    let mut sink = OutSink::new(&mut narrow);
    assert_eq!(rt; put_parts(&mut sink, &[b"rows ", b"2"]), Ok(()));
    assert_eq!(rt; sink.put(b" repeats 0\n"), Err(PutFailed));
    assert_eq!(rt; &narrow.bytes, b"rows 2 ");
}

// Two files, one of them put twice; the second fetch fails.
fn shelf_of_two(alloc: Global) -> Result<MemShelf, NoMemory> {
    let mut shelf = MemShelf::new(alloc);
    shelf.add("f", b"old")?;
    shelf.add("g", b"")?;
    shelf.add("f", b"new")?;
    shelf.fail_call(2)?;
    Ok(shelf)
}

#[test]
fn files_in_memory(rt: HostRuntime) -> Result<(), NoMemory> {
    let mut shelf = shelf_of_two(rt.alloc())?;
    for (name, limit, wanted, text) in [
        ("f", 3, Ok(()), "# new"),
        ("g", 3, Err(FetchError::Failed), "# "),
        ("g", 0, Ok(()), "# "),
        ("h", 3, Err(FetchError::Missing), "# "),
    ] {
        let (answer, into) = fetched(rt.alloc(), &mut shelf, name, limit)?;
        let found = (answer, into.as_slice());
        assert_eq!(rt; found, (wanted, text.as_bytes()), "of {name}");
    }
    Ok(())
}

// Which of these puts are taken.
fn puts(sink: &mut MemSink, texts: [&[u8]; 4]) -> [bool; 4] {
    let mut taken = [false; 4];
    for i in 0..4 {
        taken[i] = sink.put(texts[i]).is_ok();
    }
    taken
}

#[test]
fn a_sink_in_memory(rt: HostRuntime) -> Result<(), NoMemory> {
    let mut sink = MemSink::new(rt.alloc(), 6)?;
    sink.fail_put(2);
    let done = puts(&mut sink, [b"new", b"1", b"1234", b"123"]);
    let found = (done, sink.bytes());
    assert_eq!(rt; found, ([true, false, false, true], b"new123".as_slice()));
    Ok(())
}
