use crate::given::script_ran;
use sigaudit::Status;
use std::test::Fail;

// Phase 2 with an approach that has an advance detector, and one that has none.
const CONFIG: &str =
    "signal = \"7\"\nstart = \"2024-03-04T06\"\nhours = 1\n[[phase]]\nnumber = 2\nring = 1\nside = 1\n[[approach]]\nname = \"NB\"\nphase = 2\nadvance = 21\n[[approach]]\nname = \"SB\"\nphase = 2\nstop_bar = 9\n";

const SCRIPT: &str = "offsets NB\nload 0 f\noffsets NB\noffsets SB\n";

// One cycle from 06:00:03.5 to 06:00:07.5, green from 06:00:05.0 to 06:00:07.0, with vehicles at
// 06:00:04.0 and 06:00:05.7.
const FILE: &str =
    "7,2024-03-04 06:00:00.0,1,2\n7,2024-03-04 06:00:03.0,8,2\n7,2024-03-04 06:00:03.5,9,2\n7,2024-03-04 06:00:04.0,82,21\n7,2024-03-04 06:00:05.0,1,2\n7,2024-03-04 06:00:05.7,82,21\n7,2024-03-04 06:00:07.0,8,2\n7,2024-03-04 06:00:07.5,9,2\n";

const TEXT: &str =
    "1 offsets NB\nbest -\n2 ok rows 8 repeats 0 moved 0 1\n3 offsets NB\nbest 1 count 2 of 2\nshift 0 count 1\nshift 1 count 2\nshift 2 count 1\nshift 3 count 0\n4 refused bad line\n";

#[test]
fn shifts_of_an_approach(rt: HostRuntime) -> Result<(), Fail> {
    let (end, said) = script_ran(rt.alloc(), CONFIG, SCRIPT, [FILE, ""])?;
    let found = (end, said.as_slice());
    assert_eq!(rt; found, (Status::SomeRefused, TEXT.as_bytes()));
    Ok(())
}
