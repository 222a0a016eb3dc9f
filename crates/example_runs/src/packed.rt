use crate::cases::CONFIG;
use crate::given::{ran, run_words};
use sig_base::NoMemory;
use sigaudit::{Status, Words};
use std::alloc::Global;
use std::test::Fail;

// The log of two rows of 2024-03-04T06, and its packed hour.
const RECORDS: &[u8] = b"7,2024-03-04 06:00:30.5,8,2\n7,2024-03-04 06:00:10.0,1,2\n";

const PACKED: &[u8] = b"\x00SGP\x0172024-03-04T06\x00\x00\x00\x02\x64\x01\x02\xCD\x01\x08\x02";

// What a file is packed to, or why not.
const FILES: [(&[u8], Status, &[u8]); 4] = [
    (RECORDS, Status::Done, PACKED),
    (PACKED, Status::Done, PACKED),
    (
        b"\x00SGP\x018",
        Status::SomeRefused,
        b"refused packed wrong signal\n",
    ),
    (
        b"7,2024-03-04 07:00:00.0,1,2\n",
        Status::SomeRefused,
        b"refused row 1 outside hour\n",
    ),
];

// What a script that loads a file prints.
const LOADS: [(&str, &[u8], &str); 5] = [
    ("load 0 f", PACKED, "1 ok rows 2 repeats 0 moved 0 2\n"),
    (
        "load 0 f",
        b"\x00SGP\x0172024-03-04T06\x00\x00\x00\x02\xE4\x00\x01\x02\xCD\x01\x08\x02",
        "1 refused packed row 1\n",
    ),
    (
        "load 0 f",
        b"\x00SGP\x0172024-03-04T06\x00\x00\x00\x02\x64\x01\x02\xCD\x01\x08",
        "1 refused packed short\n",
    ),
    (
        "load 0 f",
        b"\x00SGP\x0172024-03-04T06\x00\x00\x00\x02\x64\x01\x02\xCD\x01\x08\x02\x00",
        "1 refused packed extra\n",
    ),
    ("load 1 f", PACKED, "1 refused packed wrong hour\n"),
];

fn pack_words(alloc: Global) -> Result<Words, NoMemory> {
    let mut words = Words::new(alloc);
    for word in ["--pack", "f", "--signal", "7", "--hour", "2024-03-04T06"] {
        words.push(word)?;
    }
    Ok(words)
}

#[test]
fn files_are_packed_or_refused(rt: HostRuntime) -> Result<(), Fail> {
    let alloc = rt.alloc();
    let words = pack_words(alloc)?;
    for (file, status, bytes) in FILES {
        let (end, said) = ran(alloc, &words, &[("f", file)])?;
        let found = (end, said.as_slice());
        assert_eq!(rt; found, (status, bytes));
    }
    Ok(())
}

#[test]
fn packed_hours_are_loaded_or_refused(rt: HostRuntime) -> Result<(), Fail> {
    let alloc = rt.alloc();
    let words = run_words(alloc)?;
    for (script, file, text) in LOADS {
        let files = [
            ("c", CONFIG.as_bytes()),
            ("s", script.as_bytes()),
            ("f", file),
        ];
        let (_end, said) = ran(alloc, &words, &files)?;
        assert_eq!(rt; said.as_slice(), text.as_bytes(), "of {text}");
    }
    Ok(())
}
