// A green with a short gap in it, which is long enough only without a second start in the gap; and
// two phases that conflict.
ghost use Rattle.std.specs.Prelude.{◌≡◌};
ghost use Rattle.rule_audit.specs.Rules.{rules_for};

use crate::held::{Mark, is_line, store_with_a_hole};
use channel_tables::colour_named;
use event_codes::Kind;
use filling_pair::{Fill, Fills, Pair, Pairs, Strand, Strands, check_strands};
use hour_store::HourStore;
use ring_config::{Config, read_config};
use rule_audit::{AuditLine, Place, Rule, rules_of};
use sig_base::{Reads, Verdict};
use std::alloc::Global;
use std::test::Fail;

const CONFIG: &[u8] = br#"signal = "7"
start = "2024-03-04T06"
hours = 2
[[phase]]
number = 2
ring = 1
side = 1
[[interval]]
channel = "phase 2"
colour = "Green"
at_least = 150
"#;

const RING: &[u8] = br#"signal = "7"
start = "2024-03-04T06"
hours = 2
[[phase]]
number = 2
ring = 1
side = 1
[[phase]]
number = 4
ring = 1
side = 2
"#;

// A strand of one of the phases, which comes into the window with this colour; its fills are of
// phase 2.
#[derive(Clone, Copy)]
struct Given<'a> {
    spec: u16,
    colour: &'a str,
    fills: &'a [(u32, u8)],
}

fn strand_of(alloc: Global, given: Given<'_>) -> Result<Strand, Fail> {
    let mut fills = Fills::new(alloc);
    for (at, code) in given.fills {
        fills.push(Fill {
            at: *at,
            code: *code,
            param: 2,
        })?;
    }
    Ok(Strand {
        spec: given.spec,
        colour: colour_named(Kind::Phase, given.colour).ok_or("colour")?,
        entry: -1,
        fills,
    })
}

fn strands_of(alloc: Global, given: &[Given]) -> Result<Strands, Fail> {
    let mut strands = Strands::new(alloc);
    for one in given {
        strands.push(strand_of(alloc, *one)?)?;
    }
    Ok(strands)
}

// What `check_strands` says of these strands at a line of one of the rules.
fn says(
    config: &Config,
    rules: &[Rule],
    store: &HourStore<Mark>,
    line: &AuditLine,
    strands: &Strands,
    kept: bool,
) -> Result<bool, Fail>
    requires { rules.now ≡ rules_for config.now }
{
    let mut reads = Reads::new(Mark);
    if !is_line(rules, store, line, &mut reads) {
        return Err(Fail::from("line"));
    }
    Ok(check_strands(config, rules, store, line, strands, kept, &mut reads))
}

// The same at this place of the first rule of the configuration.
fn checks(
    alloc: Global,
    config: &Config,
    at: u32,
    place: Place,
    given: &[Given],
    kept: bool,
) -> Result<bool, Fail> {
    let rules = rules_of(alloc, config)?;
    let store = store_with_a_hole(alloc)?;
    let strands = strands_of(alloc, given)?;
    let line = AuditLine {
        rule: 1,
        at,
        place,
        verdict: Verdict::Undecided,
        window: None,
    };
    says(config, rules.as_slice(), &store, &line, &strands, kept)
}

fn from<'a>(spec: u16, colour: &'a str, fills: &'a [(u32, u8)]) -> Given<'a> {
    Given {
        spec,
        colour,
        fills,
    }
}

#[test]
fn a_green_with_a_gap_in_it(rt: HostRuntime) -> Result<(), Fail> {
    let config = read_config(rt.alloc(), CONFIG)?;
    let again = [(1050, 7), (1060, 1)].as_slice();
    let early = [(1049, 7), (1060, 1)].as_slice();
    for (colour, fills, kept, wanted) in [
        ("Red", [].as_slice(), true, true),
        ("Red", [].as_slice(), false, false),
        ("Red", again, false, true),
        ("Red", again, true, false),
        ("Red", early, false, false),
        ("Yellow", [].as_slice(), true, false),
    ] {
        let strands = [from(0, colour, fills)];
        let place = Place::BeforeRow(1);
        let said = checks(rt.alloc(), &config, 1200, place, &strands, kept)?;
        assert_eq!(rt; said, wanted);
    }
    Ok(())
}

// Phase 4 is in the ring of phase 2, whose green begins at 1000.
#[test]
fn two_phases_that_conflict(rt: HostRuntime) -> Result<(), Fail> {
    let config = read_config(rt.alloc(), RING)?;
    let own = from(0, "Red", &[]);
    let red = from(1, "Red", &[]);
    let green = from(1, "Green", &[]);
    for (strands, kept, wanted) in [
        ([own, red].as_slice(), true, true),
        ([own, green].as_slice(), false, true),
        ([own, green].as_slice(), true, false),
        ([own].as_slice(), true, false),
        ([own, red, red].as_slice(), true, false),
        ([red, own].as_slice(), true, false),
    ] {
        let said = checks(rt.alloc(), &config, 1000, Place::EndOfTenth, strands, kept)?;
        assert_eq!(rt; said, wanted);
    }
    Ok(())
}

// A pair whose first part is a strand, and whose second has none.
fn pairs_of_one(alloc: Global) -> Result<Pairs, Fail> {
    let keeps = strands_of(alloc, &[from(0, "Red", &[(5, 1)])])?;
    let mut pairs = Pairs::new(alloc);
    pairs.push(Pair {
        keeps,
        breaks: Strands::new(alloc),
    })?;
    Ok(pairs)
}

#[test]
fn lists_pairs(rt: HostRuntime) -> Result<(), Fail> {
    let pairs = pairs_of_one(rt.alloc())?;
    assert_eq!(rt; pairs.list().len(), 1);
    Ok(())
}
