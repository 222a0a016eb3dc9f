use crate::given::{ran_over, run_words};
use outside::MemShelf;
use sigaudit::Status;
use std::alloc::Global;
use std::str;
use std::test::Fail;

const CONFIG: &str =
    "signal = \"7\"\nstart = \"2024-03-04T06\"\nhours = 700\n[[phase]]\nnumber = 2\nring = 1\nside = 1\n";

const HOURS: u32 = 700;

// A tenth is blanked and unblanked in turn, so many times.
const TURNS: u32 = 10_000;

const TENTH: &str = "2024-03-18T20:00:20.0 2024-03-18T20:00:20.1";

// The file of an hour: a green of phase 2, with its yellow and its red clearance.
fn file_of(alloc: Global, hour: u32) -> Result<String, Fail> {
    let since = hour.saturating_add(6);
    let (days, clock) = (since / 24, since % 24);
    let (month, day) = if days < 28 {
        (3, days.saturating_add(4))
    } else {
        (4, days.saturating_sub(27))
    };
    let head = format!(in alloc; "7,2024-{month:02}-{day:02}T{clock:02}:00:")?;
    let text = format!(in alloc; "{head}10.0,1,2\n{head}40.0,8,2\n{head}43.5,9,2\n")?;
    Ok(text)
}

// The files of the hours, each by its number.
fn add_hours(alloc: Global, shelf: &mut MemShelf) -> Result<(), Fail> {
    for hour in 0..HOURS {
        let name = format!(in alloc; "{hour}")?;
        shelf.add(&name, file_of(alloc, hour)?.as_bytes())?;
    }
    Ok(())
}

fn script_of(alloc: Global) -> Result<String, Fail> {
    let mut script = String::new(alloc);
    script.push_str("audit\n")?;
    for hour in 0..HOURS {
        script.push_str(&format!(in alloc; "load {hour} {hour}\n")?)?;
    }
    for _turn in 0..TURNS {
        script.push_str(&format!(in alloc; "blank {TENTH}\nunblank {TENTH}\n")?)?;
    }
    Ok(script)
}

fn shelf_of(alloc: Global) -> Result<MemShelf, Fail> {
    let mut shelf = MemShelf::new(alloc);
    shelf.add("c", CONFIG.as_bytes())?;
    shelf.add("s", script_of(alloc)?.as_bytes())?;
    add_hours(alloc, &mut shelf)?;
    Ok(shelf)
}

// How the run of that script ends, and what it writes.
fn edits_ran(alloc: Global) -> Result<(Status, Vec<u8>), Fail> {
    let words = run_words(alloc)?;
    let mut shelf = shelf_of(alloc)?;
    ran_over(alloc, &words, &mut shelf, 1_000_000)
}

// Whether the answers of these edits name hour 350 alone, and how many lines there are.
fn read_answers(alloc: Global, text: &str) -> Result<(bool, u32), Fail> {
    let mut number = 0u32;
    for line in text.lines() {
        number = number.saturating_add(1);
        if number > HOURS.saturating_add(1) {
            let wanted = format!(in alloc; "{number} ok moved 350 351")?;
            if line != wanted.as_str() {
                return Ok((false, number));
            }
        }
    }
    Ok((true, number))
}

// 700 hours, and 20,000 edits of one of them, which move it alone. With a body that goes over the
// window at each edit it wouldn't end in a test's time.
#[test]
fn many_edits_of_one_hour(rt: HostRuntime) -> Result<(), Fail> {
    let alloc = rt.alloc();
    let (end, said) = edits_ran(alloc)?;
    assert_eq!(rt; end, Status::Done);
    assert!(rt; said.starts_with(b"1 audit\n"));
    let text = str::from_utf8(&said).map_err(|_| "no text")?;
    assert_eq!(rt; read_answers(alloc, text)?, (true, 20_701));
    Ok(())
}
