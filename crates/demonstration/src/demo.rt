// A demonstration with all its rows.
ghost use Rattle.std.specs.Prelude.{◌≡◌, ◌≤◌, ◌<◌, ◌++◌, OnOk, IfOk, IfSome, option_map};
ghost use Rattle.demonstration.specs.Texts.{config_text, hour_text, script_text};
ghost use Rattle.demonstration.specs.Files.{demo_files, hour_named};

use crate::order::put_in_order;
use crate::records::{put_records, rows_of_hour};
use crate::rows::{put_pulses, put_services};
use crate::script::{put_edits, put_end};
use itoa::Buffer;
use sig_base::{NoMemory, Row, Window};
use std::alloc::Global;
use std::marker::Model;

const HEADER: &[u8] = b"SignalID,Timestamp,EventCode,EventParam\n";

const CONFIG_BEGIN: &[u8] = b"signal = \"9000\"\nstart = \"2024-01-01T00\"\nhours = ";

const CONFIG_END: &[u8] =
    b"\n\n[[phase]]\nnumber = 2\nring = 1\nside = 1\n\n[[phase]]\nnumber = 4\nring = 1\nside = 2\n\n[[interval]]\nchannel = \"phase 2\"\ncolour = \"Green\"\nat_least = 120\n\n[[approach]]\nname = \"A\"\nphase = 2\nadvance = 5\nstop_bar = 5\n";

/// A demonstration of 1 to 168 hours: a configuration, a script, and a file for each hour.
#[derive(Drop)]
pub struct Demo {
    hours: u32,
    rows: Vec<Row>,
    window: Window,
}

impl Model for Demo {
    ghost use Rattle.std.specs.Prelude.{ℕ};
    ghost use Rattle.demonstration.specs.Files.{IsDemo};

    ghost Value = { ℕ };

    ghost view = { λ d. d.hours };

    ghost invariant = { λ d. IsDemo d.hours d.rows.items d.window };
}

// The hour whose decimal digits are this name.
fn hour_named(hours: u32, name: &str) -> Option<u32>
    ensures value { result ≡ hour_named hours 0 name.now }
    ensures within { IfSome result (λ hour. hour < hours) }
{
    for hour in 0..hours {
        let mut buffer = Buffer::new();
        if buffer.format(hour) == name {
            return Some(hour);
        }
    }
    None
}

impl Demo {
    /// The demonstration of so many hours, 1 to 168.
    pub fn new(alloc: Global, hours: u32) -> Result<Self, NoMemory>
        requires some { 1 ≤ hours }
        requires few { hours ≤ 168 }
        ensures { IfOk result (λ d. d ≡ hours) }
    {
        let end = 36_000 * hours;
        let mut rows = Vec::new(alloc);
        put_services(&mut rows, end)?;
        put_pulses(&mut rows, end)?;
        put_in_order(&mut rows)?;
        let Some(window) = Window::new(19_723, 0, 169) else {
            unreachable!()
        };
        Ok(Demo {
            hours,
            rows,
            window,
        })
    }

    /// Writes the configuration.
    #[tactic(auto, unfolding(crate::specs::Texts::config_text))]
    pub fn put_config(&self, out: &mut Vec<u8>) -> Result<(), NoMemory>
        ensures { OnOk result (out.new.items ≡ out.old.items ++ config_text self.now) }
    {
        let mut buffer = Buffer::new();
        out.extend_from_slice(CONFIG_BEGIN)?;
        out.extend_from_slice(buffer.format(self.hours).as_bytes())?;
        out.extend_from_slice(CONFIG_END)?;
        Ok(())
    }

    /// Writes the script.
    #[tactic(auto, unfolding(crate::specs::Texts::script_text))]
    pub fn put_script(&self, out: &mut Vec<u8>) -> Result<(), NoMemory>
        ensures { OnOk result (out.new.items ≡ out.old.items ++ script_text self.now) }
    {
        put_edits(out, &self.window, self.hours)?;
        put_end(out, &self.window, self.hours, self.hours / 2)?;
        Ok(())
    }

    /// Writes the file of an hour, counted from 0.
    #[tactic(auto, unfolding(crate::specs::Texts::hour_text))]
    pub fn put_hour(&self, hour: u32, out: &mut Vec<u8>) -> Result<(), NoMemory>
        requires { hour < self.now }
        ensures { OnOk result (out.new.items ≡ out.old.items ++ hour_text self.now hour) }
    {
        out.extend_from_slice(HEADER)?;
        put_records(out, &self.window, rows_of_hour(hour, &self.rows))?;
        Ok(())
    }

    /// The file of this name: `config`, `script`, or the digits of an hour.
    pub fn file(&self, alloc: Global, name: &str) -> Result<Option<Vec<u8>>, NoMemory>
        ensures { IfOk result (λ o. option_map (λ v. v.items) o ≡ demo_files self.now name.now) }
    {
        let mut out = Vec::new(alloc);
        if name == "config" {
            self.put_config(&mut out)?;
            return Ok(Some(out));
        }
        if name == "script" {
            self.put_script(&mut out)?;
            return Ok(Some(out));
        }
        match hour_named(self.hours, name) {
            Some(hour) => {
                self.put_hour(hour, &mut out)?;
                Ok(Some(out))
            }
            None => Ok(None),
        }
    }
}
