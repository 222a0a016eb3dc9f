use crate::given::ran;
use sig_base::NoMemory;
use sigaudit::{Status, Words};
use std::alloc::Global;
use std::test::Fail;

const RULE: &str =
    "signal = \"7\"\nstart = \"2024-03-04T06\"\nhours = 2\n[[phase]]\nnumber = 2\nring = 1\nside = 1\n[[interval]]\nchannel = \"phase 2\"\ncolour = \"Green\"\nat_least = 150\n";

const SCRIPT: &str =
    "blank 2024-03-04T06:01:45.0 2024-03-04T06:01:47.0\nload 0 f\naudit\nmeasures\n";

// Too short a green, with a hole in it or none.
const FILE: &str = "7,2024-03-04 06:01:40.0,1,2\n7,2024-03-04 06:02:00.0,8,2\n";

const NOTHING: &str = "nothing undecided\n";

fn words_for(alloc: Global, rule: &str, at: &str) -> Result<Words, NoMemory> {
    let mut words = Words::new(alloc);
    for word in ["--config", "c", "--script", "s", "--rule", rule, "--at", at] {
        words.push(word)?;
    }
    Ok(words)
}

// How the run of a script for a rule's pairs ends, and what it writes.
fn pairs_ran(alloc: Global, rule: &str, at: &str, script: &str) -> Result<(Status, Vec<u8>), Fail> {
    let words = words_for(alloc, rule, at)?;
    let files = [
        ("c", RULE.as_bytes()),
        ("s", script.as_bytes()),
        ("f", FILE.as_bytes()),
    ];
    ran(alloc, &words, &files)
}

// A rule and a tenth that aren't there have no undecided line, and the script's lines write nothing.
#[test]
fn rules_and_tenths_that_are_not_there(rt: HostRuntime) -> Result<(), Fail> {
    for (rule, at, script, status) in [
        ("2", "2024-03-04T06:02:00.0", SCRIPT, Status::Done),
        ("0", "2024-03-04T06:02:00.0", SCRIPT, Status::Done),
        ("1", "2024-03-04T08:00:00.0", SCRIPT, Status::Done),
        ("1", "3/4/2024T5:59:59.9", "", Status::Done),
        (
            "000002",
            "2024-03-04T06:02:00.0",
            "lod 0 f\n",
            Status::SomeRefused,
        ),
    ] {
        let (end, said) = pairs_ran(rt.alloc(), rule, at, script)?;
        let found = (end, said.as_slice());
        assert_eq!(rt;
            found,
            (status, NOTHING.as_bytes()),
            "of rule {rule} at {at}"
        );
    }
    Ok(())
}

// Without a script, and with a faulty configuration, the answer is that of a script's own words.
#[test]
fn words_of_pairs_without_their_files(rt: HostRuntime) -> Result<(), Fail> {
    let words = words_for(rt.alloc(), "1", "2024-03-04T06:02:00.0")?;
    for (config, status, text) in [
        (RULE, Status::NoFile, ""),
        (
            "hours = 2",
            Status::BadConfig,
            "config refused: missing top.signal\n",
        ),
    ] {
        let (end, said) = ran(rt.alloc(), &words, &[("c", config.as_bytes())])?;
        let found = (end, said.as_slice());
        assert_eq!(rt; found, (status, text.as_bytes()));
    }
    Ok(())
}

// A hole in the green that makes its line undecided, and the same line of a log without a hole.
#[test]
fn a_line_that_a_hole_leaves_undecided(rt: HostRuntime) -> Result<(), Fail> {
    for (script, front) in [
        (
            SCRIPT,
            "undecided 1 2024-03-04T06:02:00.0\nkeeps\nchannel phase 2 from ",
        ),
        ("load 0 f\naudit\n", NOTHING),
    ] {
        let (end, said) = pairs_ran(rt.alloc(), "1", "2024-03-04T06:02:00.0", script)?;
        assert_eq!(rt; end, Status::Done);
        assert!(rt; said.starts_with(front.as_bytes()));
    }
    Ok(())
}
