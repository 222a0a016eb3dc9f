// A shelf with the files of a demonstration.
ghost use Rattle.std.specs.Prelude.{◌≡◌, ◌≤◌, IfOk};

use demonstration::Demo;
use outside::{FetchError, Shelf};
use sig_base::NoMemory;
use std::alloc::Global;
use std::marker::Model;

/// The files of a demonstration. No fetch of them fails unless memory runs out.
#[derive(Drop)]
pub struct DemoShelf {
    demo: Demo,
    missing: u64,
    long: u64,
}

impl Model for DemoShelf {
    ghost use Rattle.sigaudit.specs.DemoShelf.{DemoFiles};

    ghost Value = { DemoFiles };

    ghost view = { λ s. record { hours = s.demo; missing = s.missing; long = s.long } };
}

impl DemoShelf {
    /// The files of the demonstration of so many hours, 1 to 168.
    pub fn new(alloc: Global, hours: u32) -> Result<Self, NoMemory>
        requires some { 1 ≤ hours }
        requires few { hours ≤ 168 }
        ensures { IfOk result (λ s. s ≡ record { hours = hours; missing = 0; long = 0 }) }
    {
        let demo = Demo::new(alloc, hours)?;
        Ok(DemoShelf {
            demo,
            missing: 0,
            long: 0,
        })
    }
}

impl Shelf for DemoShelf {
    ghost use Rattle.std.specs.Prelude.{Some};
    ghost use Rattle.demonstration.specs.Files.{demo_files};
    ghost use Rattle.sigaudit.specs.DemoShelf.{demo_counts};

    ghost files = { λ s. Some (demo_files s.hours) };

    ghost counts = { λ s. demo_counts s.missing s.long };

    fn fetch(
        &mut self,
        alloc: Global,
        name: &str,
        limit: u64,
        into: &mut Vec<u8>,
    ) -> Result<(), FetchError> {
        let bytes = match self.demo.file(alloc, name) {
            Ok(Some(bytes)) => bytes,
            Ok(None) => {
                self.missing = self.missing.saturating_add(1);
                return Err(FetchError::Missing);
            }
            Err(_) => return Err(FetchError::Memory),
        };
        if bytes.len() as u64 > limit {
            self.long = self.long.saturating_add(1);
            return Err(FetchError::TooLong);
        }
        if into.extend_from_slice(&bytes).is_err() {
            return Err(FetchError::Memory);
        }
        Ok(())
    }
}
