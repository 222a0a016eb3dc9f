// The machine of any channel.
ghost use Rattle.std.specs.Prelude.{◌≡◌, IsTrue};
ghost use Rattle.channel_tables.specs.Any.{any_rules};
ghost use Rattle.channel_tables.specs.Spec.{IsSpec, rules_of};

use crate::{
    CoordMachine, DetectorMachine, OverlapMachine, PedMachine, PhaseMachine, PreemptMachine, Spec,
    SwitchMachine,
};
use colour_machine::Machine;
use event_codes::Kind;

/// The machine of a channel of any kind.
#[derive(Clone, Copy, Debug)]
pub enum AnyMachine {
    Phase(PhaseMachine),
    Ped(PedMachine),
    Overlap(OverlapMachine),
    Switch(SwitchMachine),
    Detector(DetectorMachine),
    Preempt(PreemptMachine),
    Coord(CoordMachine),
}

impl Machine for AnyMachine {
    ghost use Rattle.channel_tables.specs.AnyLaws.{any_laws};

    ghost rules = { any_rules };

    ghost laws = { any_laws };

    fn colours(&self) -> u8 {
        match self {
            AnyMachine::Phase(machine) => machine.colours(),
            AnyMachine::Ped(machine) => machine.colours(),
            AnyMachine::Overlap(machine) => machine.colours(),
            AnyMachine::Switch(machine) => machine.colours(),
            AnyMachine::Detector(machine) => machine.colours(),
            AnyMachine::Preempt(machine) => machine.colours(),
            AnyMachine::Coord(machine) => machine.colours(),
        }
    }

    fn letters(&self) -> u8 {
        match self {
            AnyMachine::Phase(machine) => machine.letters(),
            AnyMachine::Ped(machine) => machine.letters(),
            AnyMachine::Overlap(machine) => machine.letters(),
            AnyMachine::Switch(machine) => machine.letters(),
            AnyMachine::Detector(machine) => machine.letters(),
            AnyMachine::Preempt(machine) => machine.letters(),
            AnyMachine::Coord(machine) => machine.letters(),
        }
    }

    fn step(&self, colour: u8, letter: u8) -> Option<u8> {
        match self {
            AnyMachine::Phase(machine) => machine.step(colour, letter),
            AnyMachine::Ped(machine) => machine.step(colour, letter),
            AnyMachine::Overlap(machine) => machine.step(colour, letter),
            AnyMachine::Switch(machine) => machine.step(colour, letter),
            AnyMachine::Detector(machine) => machine.step(colour, letter),
            AnyMachine::Preempt(machine) => machine.step(colour, letter),
            AnyMachine::Coord(machine) => machine.step(colour, letter),
        }
    }

    fn floor(&self, colour: u8) -> u32 {
        match self {
            AnyMachine::Phase(machine) => machine.floor(colour),
            AnyMachine::Ped(machine) => machine.floor(colour),
            AnyMachine::Overlap(machine) => machine.floor(colour),
            AnyMachine::Switch(machine) => machine.floor(colour),
            AnyMachine::Detector(machine) => machine.floor(colour),
            AnyMachine::Preempt(machine) => machine.floor(colour),
            AnyMachine::Coord(machine) => machine.floor(colour),
        }
    }
}

/// The machine of a channel: that of its kind, with the floors of the spec.
pub fn machine_of(spec: &Spec) -> AnyMachine
    requires { IsSpec spec.now }
    ensures { any_rules result ≡ rules_of spec.now }
{
    match spec.channel.kind {
        Kind::Phase => AnyMachine::Phase(PhaseMachine::new(spec.floors)),
        Kind::Ped => AnyMachine::Ped(PedMachine::new(spec.floors)),
        Kind::Overlap => AnyMachine::Overlap(OverlapMachine::new(spec.floors)),
        Kind::Detector => AnyMachine::Detector(DetectorMachine {}),
        Kind::PedDetector | Kind::PreemptInput => AnyMachine::Switch(SwitchMachine {}),
        Kind::PreemptService => AnyMachine::Preempt(PreemptMachine::new(spec.floors)),
        Kind::Coordination => AnyMachine::Coord(CoordMachine {}),
    }
}

/// Whether both channels have the same machine: they are of one kind, and have the same floors.
pub fn same_machine(a: &Spec, b: &Spec) -> bool
    ensures { IsTrue result → rules_of a.now ≡ rules_of b.now }
{
    a.channel.kind == b.channel.kind && a.floors == b.floors
}
