ghost use Rattle.std.specs.Prelude.{◌≤◌, ◌<◌, IfOk};
ghost use Rattle.board.specs.Logs.{HourLog, IsHour};
ghost use Rattle.rule_audit.specs.Lines.{IsAudited};

use crate::given::{PHASE, WHOLE, configured, row};
use board::{Aheads, HourView, Pasts, pasts_hour};
use gap_map::Stretch;
use ring_config::Config;
use rule_audit::{AuditLine, Place, Rule, audit_rows, rules_of};
use sig_base::{Row, Verdict};
use std::alloc::{AllocError, Global};
use std::test::Fail;

// Two phases of one ring, a pedestrian signal and an overlap.
const CORNER: &str = r#"signal = "7"
start = "2024-03-04T06"
hours = 1
[[phase]]
number = 4
ring = 1
side = 2
[[phase]]
number = 2
ring = 1
side = 1
[[ped]]
number = 2
[[overlap]]
number = 1
parents = [4, 2]
[[interval]]
channel = "phase 2"
colour = "Green"
at_least = 150
"#;

// The channels are phase 2, phase 4, pedestrian signal 2 and overlap 1; colours are bits.
const RULES: &str = "Interval IntervalItem { spec: 0, colour: 2, bound: AtLeast(150) }
Conflict 2 4 [Term { spec: 0, colours: Mask { bits: 161 } }, Term { spec: 1, colours: Mask { bits: 161 } }]
Companion 2 [Term { spec: 2, colours: Mask { bits: 13 } }, Term { spec: 0, colours: Mask { bits: 6 } }]
Parents 1 [Term { spec: 3, colours: Mask { bits: 61 } }, Term { spec: 0, colours: Mask { bits: 94 } }, Term { spec: 1, colours: Mask { bits: 94 } }]
";

fn described(alloc: Global, rule: &Rule) -> Result<String, AllocError> {
    match rule {
        Rule::Interval(item) => format!(in alloc; "Interval {item:?}\n"),
        Rule::Conflict(a, b, clause) => {
            format!(in alloc; "Conflict {a} {b} {:?}\n", clause.terms())
        }
        Rule::Companion(ped, clause) => {
            format!(in alloc; "Companion {ped} {:?}\n", clause.terms())
        }
        Rule::Parents(overlap, clause) => {
            format!(in alloc; "Parents {overlap} {:?}\n", clause.terms())
        }
    }
}

// The rules of the configuration, a line each.
fn listed(alloc: Global, config: &Config) -> Result<String, Fail> {
    let mut text = String::new(alloc);
    for rule in &rules_of(alloc, config)? {
        text.push_str(described(alloc, rule)?.as_str())?;
    }
    Ok(text)
}

fn rules_of_the_corner(alloc: Global) -> Result<String, Fail> {
    let config = configured(alloc, CORNER)?;
    listed(alloc, &config)
}

#[test]
fn rules_of_a_corner(rt: HostRuntime) -> Result<(), Fail> {
    let text = rules_of_the_corner(rt.alloc())?;
    assert_eq!(rt; text.as_str(), RULES);
    Ok(())
}

// A view of the hour.
fn seen(
    alloc: Global,
    config: &Config,
    rows: &[Row],
    stretches: &[Stretch],
) -> Result<HourView, Fail>
    requires { IsHour 0 rows.now stretches.now }
    ensures { IfOk result (λ v. (log : HourLog)
        × IsAudited config.now v rows.now stretches.now log) }
{
    let specs = config.specs();
    let before = Pasts::start(alloc, specs)?;
    let after = Aheads::end(alloc, specs, 36_000)?;
    let _later = pasts_hour(alloc, specs, &before, rows, stretches)?;
    let view = HourView::new(alloc, specs, &before, rows, stretches, &after)?;
    Ok(view)
}

// The audit of a green of phase 2 that begins at 1000 and ends with a yellow.
fn audited(alloc: Global, config: &Config, yellow: u32) -> Result<Vec<AuditLine>, Fail>
    requires low { 1000 ≤ yellow }
    requires high { yellow < 36000 }
{
    let rows = [row(1000, 1), row(yellow, 8)];
    let view = seen(alloc, config, &rows, &WHOLE)?;
    let rules = rules_of(alloc, config)?;
    let lines = audit_rows(alloc, config, rules.as_slice(), &view, &rows, &WHOLE, false)?;
    Ok(lines)
}

// The audit by the configuration of one phase.
fn audited_phase(alloc: Global, yellow: u32) -> Result<Vec<AuditLine>, Fail>
    requires low { 1000 ≤ yellow }
    requires high { yellow < 36000 }
{
    let config = configured(alloc, PHASE)?;
    audited(alloc, &config, yellow)
}

// 14.9 seconds are too short, 15 are long enough.
#[test]
fn a_green_of_at_least_15_seconds(rt: HostRuntime) -> Result<(), Fail> {
    for (yellow, verdict) in [(1149, Verdict::Broken), (1150, Verdict::Kept)] {
        let line = AuditLine {
            rule: 1,
            at: yellow,
            place: Place::BeforeRow(1),
            verdict,
            window: None,
        };
        let lines = audited_phase(rt.alloc(), yellow)?;
        assert_eq!(rt; lines.as_slice(), [line].as_slice());
    }
    Ok(())
}
