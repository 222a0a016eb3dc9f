use channel_tables::{PhaseMachine, colour_named, letter_of};
use colour_machine::{Machine, Mask, after_any};
use event_codes::Kind;

#[test]
fn every_colour_follows_yellow(rt: HostRuntime) {
    let machine = PhaseMachine::new([0; 16]);
    let all = after_any(&machine, Mask::none().with(4));
    for colour in 0..8 {
        assert!(rt; all.has(colour), "colour {colour}");
    }
    assert!(rt; !all.has(8));
}

fn colour_after(machine: &PhaseMachine, colour: Option<u8>, code: u8) -> Option<u8> {
    let letter = letter_of(code, 1)?;
    let colour = colour?;
    if letter < machine.letters() && colour < machine.colours() {
        machine.step(colour, letter)
    } else {
        None
    }
}

#[test]
fn pairs_of_one_stamp_are_legal_in_either_order(rt: HostRuntime) {
    let machine = PhaseMachine::new([0; 16]);
    let pairs = [
        ("Red", 0, 1, "Green"),
        ("Green", 7, 8, "Yellow"),
        ("Yellow", 9, 10, "Clear"),
        ("Clear", 11, 12, "Red"),
    ];
    for (name, one, other, last) in pairs {
        let from = colour_named(Kind::Phase, name);
        let to = colour_named(Kind::Phase, last);
        assert!(rt; to.is_some(), "{last}");
        let forth = colour_after(&machine, colour_after(&machine, from, one), other);
        let back = colour_after(&machine, colour_after(&machine, from, other), one);
        assert_eq!(rt; forth, to, "{one} and then {other}");
        assert_eq!(rt; back, to, "{other} and then {one}");
    }
}
