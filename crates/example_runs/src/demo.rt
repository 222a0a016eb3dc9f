use crate::given::ran_over;
use outside::MemShelf;
use sigaudit::{Status, Words};
use std::alloc::Global;
use std::str;
use std::test::Fail;

// What a demonstration of one hour prints, without the lines of its approach.
const TEXT: &str = "1 ok rows 2033 repeats 0 moved 0 1
2 ok moved 0 1
3 ok moved 0 1
4 measures
held 0 rows 0 known 0
phase 2 services 0 least - greatest - sum 0 gap 0 max 0 force 0 unlogged 0 cycles 0 cycle_sum 0
phase 4 services 0 least - greatest - sum 0 gap 0 max 0 force 0 unlogged 0 cycles 0 cycle_sum 0
5 ok rows 2033 repeats 0 moved 0 1
6 ok moved 0 1
7 measures
held 1 rows 2033 known 36000
phase 2 services 71 least 137 greatest 329 sum 17014 gap 25 max 28 force 18 unlogged 0 cycles 70 cycle_sum 35616
phase 4 services 71 least 141 greatest 330 sum 16839 gap 24 max 22 force 25 unlogged 0 cycles 70 cycle_sum 35532
";

// The text without the lines of the approach.
fn without_approach(alloc: Global, text: &str) -> Result<Vec<u8>, Fail> {
    let mut kept = Vec::new(alloc);
    for line in text.lines() {
        if !line.starts_with("approach A ") {
            kept.extend_from_slice(line.as_bytes())?;
            kept.push(b'\n')?;
        }
    }
    Ok(kept)
}

// How a demonstration of one hour ends, and what it writes. Each fetch from the given shelf would
// fail.
fn demo_ran(alloc: Global) -> Result<(Status, Vec<u8>), Fail> {
    let mut words = Words::new(alloc);
    words.push("--demo=1")?;
    let mut shelf = MemShelf::new(alloc);
    shelf.fail_call(1)?;
    ran_over(alloc, &words, &mut shelf, 4000)
}

#[test]
fn a_demonstration_of_one_hour(rt: HostRuntime) -> Result<(), Fail> {
    let alloc = rt.alloc();
    let (end, said) = demo_ran(alloc)?;
    assert_eq!(rt; end, Status::Done);
    let text = str::from_utf8(&said).map_err(|_| "no text")?;
    assert_eq!(rt; without_approach(alloc, text)?.as_slice(), TEXT.as_bytes());
    Ok(())
}
