mod documents;
mod entries;

use documents::DOCUMENTS;
use entries::ENTRIES;
use event_codes::{Channel, Kind};
use ring_config::{Approach, Config, ConfigError, KeyAt, read_config};
use std::alloc::Global;
use std::test::Fail;

// A document whose own keys are good, with three phases.
const BASE: &str = r#"signal = "7"
start = "2024-03-04T06"
hours = 2
[[phase]]
number = 2
ring = 1
side = 1
[[phase]]
number = 4
ring = 1
side = 2
[[phase]]
number = 6
ring = 2
side = 1
"#;

// What the tables hold at most, as the format has it.
const LIMITS: [(&str, &str, u32); 9] = [
    ("phase", "Phase", 16),
    ("ped", "Ped", 16),
    ("overlap", "Overlap", 16),
    ("preempt", "Preempt", 16),
    ("conflict", "Conflict", 120),
    ("allow", "Allow", 120),
    ("floor", "Floor", 512),
    ("interval", "Interval", 256),
    ("approach", "Approach", 64),
];

fn named(alloc: Global, what: &str, at: KeyAt) -> Result<String, Fail> {
    let text = format!(in alloc; "{} {:?} {} {:?}", what, at.table, at.entry, at.key)?;
    Ok(text)
}

// What reading a text answers, in words.
fn answer(alloc: Global, text: &str) -> Result<String, Fail> {
    match read_config(alloc, text.as_bytes()).err() {
        None => Ok(String::from_str(alloc, "accepted")?),
        Some(ConfigError::NotToml) => Ok(String::from_str(alloc, "not toml")?),
        Some(ConfigError::Missing(at)) => named(alloc, "missing", at),
        Some(ConfigError::BadValue(at)) => named(alloc, "bad value", at),
        Some(ConfigError::Unknown(at)) => named(alloc, "unknown", at),
        Some(ConfigError::Repeated(at)) => named(alloc, "repeated", at),
        Some(ConfigError::TooMany(at)) => named(alloc, "too many", at),
        Some(ConfigError::Memory) => Ok(String::from_str(alloc, "memory")?),
    }
}

// A document with so many empty entries of a table.
fn empty_entries(alloc: Global, table: &str, count: u32) -> Result<String, Fail> {
    let mut text = String::from_str(
        alloc,
        "signal = \"7\"\nstart = \"2024-03-04T06\"\nhours = 2\n",
    )?;
    text.push_str(table)?;
    text.push_str(" = [")?;
    for _ in 0..count {
        text.push_str("{},")?;
    }
    text.push_str("]\n")?;
    Ok(text)
}

#[test]
fn documents_refused(rt: HostRuntime) -> Result<(), Fail> {
    let alloc = rt.alloc();
    for case in DOCUMENTS.split("\n==\n") {
        let (text, wanted) = case.split_once("\n=> ").ok_or("no answer")?;
        let found = answer(alloc, text)?;
        assert_eq!(rt; found.as_str(), wanted, "{text}");
    }
    Ok(())
}

#[test]
fn entries_refused(rt: HostRuntime) -> Result<(), Fail> {
    let alloc = rt.alloc();
    for case in ENTRIES.split("\n==\n") {
        let (entries, wanted) = case.split_once("\n=> ").ok_or("no answer")?;
        let mut text = String::from_str(alloc, BASE)?;
        text.push_str(entries)?;
        let found = answer(alloc, text.as_str())?;
        assert_eq!(rt; found.as_str(), wanted, "{entries}");
    }
    Ok(())
}

#[test]
fn too_many_entries(rt: HostRuntime) -> Result<(), Fail> {
    let alloc = rt.alloc();
    for (table, name, limit) in LIMITS {
        let text = empty_entries(alloc, table, limit + 1)?;
        let found = answer(alloc, text.as_str())?;
        let wanted = format!(in alloc; "too many {} {} Other", name, limit)?;
        assert_eq!(rt; found.as_str(), wanted.as_str());
    }
    Ok(())
}

#[test]
fn bytes_that_are_no_text(rt: HostRuntime) {
    let found = read_config(rt.alloc(), &[0xFF]).err();
    assert_eq!(rt; found, Some(ConfigError::NotToml));
}

// A phase, a pedestrian signal, an overlap and a preempt of this number.
fn numbered(alloc: Global, n: u32) -> Result<String, Fail> {
    let phase = format!(in alloc; "[[phase]]\nnumber = {}\nring = 1\nside = 1\n", n)?;
    let overlap = format!(in alloc; "[[overlap]]\nnumber = {}\nparents = [{}]\n", n, n)?;
    let mut text = phase;
    text.push_str(overlap.as_str())?;
    for table in ["ped", "preempt"] {
        let entry = format!(in alloc; "[[{}]]\nnumber = {}\n", table, n)?;
        text.push_str(entry.as_str())?;
    }
    Ok(text)
}

// An approach with two detectors.
fn numbered_approach(alloc: Global, n: u32) -> Result<String, Fail> {
    let text = format!(in alloc;
        "[[approach]]\nname = \"A-{}\"\nphase = 1\nadvance = {}\nstop_bar = {}\n",
        n,
        n,
        n.saturating_add(64)
    )?;
    Ok(text)
}

// A document with as many channels as there can be.
fn widest(alloc: Global) -> Result<String, Fail> {
    let mut text = String::from_str(
        alloc,
        "signal = \"7\"\nstart = \"2024-03-04T06\"\nhours = 1\ncoordination = true\n",
    )?;
    for n in 1..17u32 {
        text.push_str(numbered(alloc, n)?.as_str())?;
    }
    for n in 1..65u32 {
        text.push_str(numbered_approach(alloc, n)?.as_str())?;
    }
    Ok(text)
}

const WHOLE: &str = r#"signal = "SIG-7"
start = "2024-03-04T06"
hours = 2
coordination = true
[[phase]]
number = 6
ring = 2
side = 1
[[phase]]
number = 2
ring = 1
side = 1
[[phase]]
number = 4
ring = 1
side = 2
[[ped]]
number = 4
[[overlap]]
number = 1
parents = [6, 2]
[[preempt]]
number = 3
[[conflict]]
a = 6
b = 2
[[allow]]
a = 2
b = 4
[[floor]]
channel = "phase 2"
colour = "Yellow"
tenths = 30
[[interval]]
channel = "preempt 3"
colour = "Dwell"
at_most = 600
[[approach]]
name = "north"
phase = 2
stop_bar = 9
travel = 35
advance = 5
"#;

fn described_approach(alloc: Global, approach: &Approach) -> Result<String, Fail> {
    let text = format!(in alloc;
        "{:?} {} {:?} {:?} {} {:?}\n",
        approach.name.bytes(),
        approach.phase,
        approach.advance,
        approach.stop_bar,
        approach.travel,
        approach.high
    )?;
    Ok(text)
}

// What a configuration says of its approaches, and the place of one of its channels.
fn described_approaches(alloc: Global, config: &Config) -> Result<String, Fail> {
    let service = Channel {
        kind: Kind::PreemptService,
        number: 3,
    };
    let mut text = format!(in alloc;
        "{} {:?} {:?} {:?}\n",
        config.approach_count(),
        config.approach_named("north"),
        config.approach_named("south"),
        config.spec_of(service)
    )?;
    if let Some(approach) = config.approach_at(0) {
        let line = described_approach(alloc, approach)?;
        text.push_str(line.as_str())?;
    }
    Ok(text)
}

// What it says of the whole.
fn described_head(alloc: Global, config: &Config) -> Result<String, Fail> {
    let text = format!(in alloc;
        "{} {} {}\n",
        config.window().hours(),
        config.signal(),
        config.coordination()
    )?;
    Ok(text)
}

// Phases, pedestrian signals and preempts.
fn described_phases(alloc: Global, config: &Config) -> Result<String, Fail> {
    let text = format!(in alloc;
        "{:?}\n{:?} {:?}\n",
        config.phases(),
        config.peds(),
        config.preempts()
    )?;
    Ok(text)
}

fn described_overlaps(alloc: Global, config: &Config) -> Result<String, Fail> {
    let mut text = String::new(alloc);
    for overlap in config.overlaps() {
        let parents = overlap.parents;
        let line = format!(in alloc;
            "{} {} {} {}\n",
            overlap.number,
            parents.has(1),
            parents.has(3),
            parents.has(5)
        )?;
        text.push_str(line.as_str())?;
    }
    Ok(text)
}

fn described_specs(alloc: Global, config: &Config) -> Result<String, Fail> {
    let mut text = format!(in alloc; "{:?}\n", config.intervals())?;
    for spec in config.specs() {
        let line = format!(in alloc;
            "{:?} {} {:?}\n",
            spec.channel.kind, spec.channel.number, spec.floors
        )?;
        text.push_str(line.as_str())?;
    }
    Ok(text)
}

// What a configuration says, call by call.
fn described(alloc: Global, config: &Config) -> Result<String, Fail> {
    let mut text = described_head(alloc, config)?;
    text.push_str(described_phases(alloc, config)?.as_str())?;
    text.push_str(described_overlaps(alloc, config)?.as_str())?;
    text.push_str(described_specs(alloc, config)?.as_str())?;
    text.push_str(described_approaches(alloc, config)?.as_str())?;
    Ok(text)
}

const DESCRIBED: &str = r#"2 SIG-7 true
[PhaseItem { number: 6, ring: 2, side: 1 }, PhaseItem { number: 2, ring: 1, side: 1 }, PhaseItem { number: 4, ring: 1, side: 2 }]
[4] [3]
1 true false true
[IntervalItem { spec: 6, colour: 3, bound: AtMost(600) }]
Phase 2 [0, 0, 0, 0, 30, 0, 0, 0, 0, 0, 0, 0, 0, 0, 0, 0]
Phase 4 [0, 0, 0, 0, 0, 0, 0, 0, 0, 0, 0, 0, 0, 0, 0, 0]
Phase 6 [0, 0, 0, 0, 0, 0, 0, 0, 0, 0, 0, 0, 0, 0, 0, 0]
Ped 4 [0, 0, 0, 0, 0, 0, 0, 0, 0, 0, 0, 0, 0, 0, 0, 0]
Overlap 1 [0, 0, 0, 0, 0, 0, 0, 0, 0, 0, 0, 0, 0, 0, 0, 0]
PreemptInput 3 [0, 0, 0, 0, 0, 0, 0, 0, 0, 0, 0, 0, 0, 0, 0, 0]
PreemptService 3 [0, 0, 0, 0, 0, 0, 0, 0, 0, 0, 0, 0, 0, 0, 0, 0]
PedDetector 4 [0, 0, 0, 0, 0, 0, 0, 0, 0, 0, 0, 0, 0, 0, 0, 0]
Detector 5 [0, 0, 0, 0, 0, 0, 0, 0, 0, 0, 0, 0, 0, 0, 0, 0]
Detector 9 [0, 0, 0, 0, 0, 0, 0, 0, 0, 0, 0, 0, 0, 0, 0, 0]
Coordination 0 [0, 0, 0, 0, 0, 0, 0, 0, 0, 0, 0, 0, 0, 0, 0, 0]
1 Some(0) None Some(6)
[110, 111, 114, 116, 104] 2 Some(5) Some(9) 35 Frac { num: 4, den: 5 }
"#;

fn described_whole(alloc: Global) -> Result<String, Fail> {
    let config = read_config(alloc, WHOLE.as_bytes())?;
    described(alloc, &config)
}

#[test]
fn whole_configuration(rt: HostRuntime) -> Result<(), Fail> {
    let text = described_whole(rt.alloc())?;
    assert_eq!(rt; text.as_str(), DESCRIBED);
    Ok(())
}

// How many channels a document has.
fn channel_count(alloc: Global, text: &str) -> Result<usize, Fail> {
    Ok(read_config(alloc, text.as_bytes())?.specs().len())
}

#[test]
fn widest_configuration(rt: HostRuntime) -> Result<(), Fail> {
    let alloc = rt.alloc();
    let mut text = widest(alloc)?;
    // And a mebibyte of comments.
    for _ in 0..16_384u32 {
        text.push_str("# the corner of First Street and Main Street, north side of it.\n")?;
    }
    assert_eq!(rt; channel_count(alloc, text.as_str())?, 225);
    Ok(())
}
