use crate::given::script_ran;
use sigaudit::Status;
use std::test::Fail;

// A window of two hours from 2024-03-04T06, phase 2, whose green is to last at least 15 seconds.
const TIMED: &str =
    "signal = \"7\"\nstart = \"2024-03-04T06\"\nhours = 2\n[[phase]]\nnumber = 2\nring = 1\nside = 1\n[[interval]]\nchannel = \"phase 2\"\ncolour = \"Green\"\nat_least = 150\n";

// The same window, with phases 2 and 4, which conflict.
const CROSSING: &str =
    "signal = \"7\"\nstart = \"2024-03-04T06\"\nhours = 2\n[[phase]]\nnumber = 2\nring = 1\nside = 1\n[[phase]]\nnumber = 4\nring = 1\nside = 2\n";

// A script over phase 2, its file f, how the run ends, and what it prints.
const AUDITED: [(&str, &str, Status, &str); 5] = [
    (
        "load 0 f\naudit\nverdicts 0\nverdicts 2\naudit 0\n",
        "7,2024-03-04 06:01:40.0,1,2\n7,2024-03-04 06:01:54.9,8,2\n",
        Status::SomeRefused,
        "1 ok rows 2 repeats 0 moved 0 2\n2 audit\nrule 1 phase 2 Green at least 150 kept 0 broken 1 undecided 0\nbroken 1 2024-03-04T06:01:54.9 from 2024-03-04T06:01:40.0 to 2024-03-04T06:01:54.9\n3 verdicts 0\nbroken 1 2024-03-04T06:01:54.9 from 2024-03-04T06:01:40.0 to 2024-03-04T06:01:54.9\n4 refused out of window\n5 refused bad line\n",
    ),
    (
        "load 0 f\naudit\nverdicts 0\nverdicts 1\n",
        "7,2024-03-04 06:01:40.0,1,2\n7,2024-03-04 06:01:55.0,8,2\n",
        Status::Done,
        "1 ok rows 2 repeats 0 moved 0 2\n2 audit\nrule 1 phase 2 Green at least 150 kept 1 broken 0 undecided 0\n3 verdicts 0\nkept 1 2024-03-04T06:01:55.0\n4 verdicts 1\n",
    ),
    (
        "load 0 f\naudit\n",
        "7,2024-03-04 06:00:14.8,8,2\n",
        Status::Done,
        "1 ok rows 1 repeats 0 moved 0 2\n2 audit\nrule 1 phase 2 Green at least 150 kept 0 broken 0 undecided 1\nundecided 1 2024-03-04T06:00:14.8\n",
    ),
    (
        "blank 2024-03-04T06:01:45.0 2024-03-04T06:01:47.0\nload 0 f\naudit\n",
        "7,2024-03-04 06:01:40.0,1,2\n7,2024-03-04 06:01:50.0,7,2\n7,2024-03-04 06:01:51.0,8,2\n",
        Status::Done,
        "1 ok moved 0 1\n2 ok rows 3 repeats 0 moved 0 2\n3 audit\nrule 1 phase 2 Green at least 150 kept 0 broken 1 undecided 0\nbroken 1 2024-03-04T06:01:50.0 from 2024-03-04T06:01:40.0 to 2024-03-04T06:01:51.0\n",
    ),
    (
        "load 0 f\nwithdraw 0\naudit\n",
        "7,2024-03-04 06:00:10.0,12,2\n7,2024-03-04 06:00:20.0,8,2\n",
        Status::SomeRefused,
        "1 refused contradiction 2024-03-04T06:00:20.0 code 8 param 2\n2 refused not held\n3 audit\n",
    ),
];

#[test]
fn verdicts_and_contradictions(rt: HostRuntime) -> Result<(), Fail> {
    for (script, file, status, text) in AUDITED {
        let (end, said) = script_ran(rt.alloc(), TIMED, script, [file, ""])?;
        let found = (end, said.as_slice());
        assert_eq!(rt; found, (status, text.as_bytes()), "of {file}");
    }
    Ok(())
}

// A log with a hole, and the same log with the hole filled by a history that keeps the rule and by
// one that breaks it: configuration, script, the files f and g, and what is printed.
const HOLES: [(&str, &str, [&str; 2], &str); 9] = [
    // A green from 06:01:40.0 to 06:02:00.0, with two seconds in it unknown.
    (
        TIMED,
        "blank 2024-03-04T06:01:45.0 2024-03-04T06:01:47.0\nload 0 f\naudit\n",
        [
            "7,2024-03-04 06:01:40.0,1,2\n7,2024-03-04 06:02:00.0,8,2\n",
            "",
        ],
        "1 ok moved 0 1\n2 ok rows 2 repeats 0 moved 0 2\n3 audit\nrule 1 phase 2 Green at least 150 kept 0 broken 0 undecided 1\nundecided 1 2024-03-04T06:02:00.0\n",
    ),
    // Nothing happened there.
    (
        TIMED,
        "load 0 f\naudit\n",
        [
            "7,2024-03-04 06:01:40.0,1,2\n7,2024-03-04 06:02:00.0,8,2\n",
            "",
        ],
        "1 ok rows 2 repeats 0 moved 0 2\n2 audit\nrule 1 phase 2 Green at least 150 kept 1 broken 0 undecided 0\n",
    ),
    // The green ended, and another began at 06:01:46.0.
    (
        TIMED,
        "load 0 f\naudit\n",
        [
            "7,2024-03-04 06:01:40.0,1,2\n7,2024-03-04 06:01:45.0,8,2\n7,2024-03-04 06:01:45.5,9,2\n7,2024-03-04 06:01:46.0,1,2\n7,2024-03-04 06:02:00.0,8,2\n",
            "",
        ],
        "1 ok rows 5 repeats 0 moved 0 2\n2 audit\nrule 1 phase 2 Green at least 150 kept 0 broken 2 undecided 0\nbroken 1 2024-03-04T06:01:45.0 from 2024-03-04T06:01:40.0 to 2024-03-04T06:01:45.0\nbroken 1 2024-03-04T06:02:00.0 from 2024-03-04T06:01:46.0 to 2024-03-04T06:02:00.0\n",
    ),
    // A yellow at 07:00:14.8, with the hour before it not held.
    (
        TIMED,
        "load 1 f\naudit\n",
        ["7,2024-03-04 07:00:14.8,8,2\n", ""],
        "1 ok rows 1 repeats 0 moved 0 2\n2 audit\nrule 1 phase 2 Green at least 150 kept 0 broken 0 undecided 1\nundecided 1 2024-03-04T07:00:14.8\n",
    ),
    // The green began at 06:59:59.0.
    (
        TIMED,
        "load 1 f\nload 0 g\naudit\n",
        [
            "7,2024-03-04 07:00:14.8,8,2\n",
            "7,2024-03-04 06:59:59.0,1,2\n",
        ],
        "1 ok rows 1 repeats 0 moved 0 2\n2 ok rows 1 repeats 0 moved 0 2\n3 audit\nrule 1 phase 2 Green at least 150 kept 1 broken 0 undecided 0\n",
    ),
    // It began at 06:59:59.9.
    (
        TIMED,
        "load 1 f\nload 0 g\naudit\n",
        [
            "7,2024-03-04 07:00:14.8,8,2\n",
            "7,2024-03-04 06:59:59.9,1,2\n",
        ],
        "1 ok rows 1 repeats 0 moved 0 2\n2 ok rows 1 repeats 0 moved 0 2\n3 audit\nrule 1 phase 2 Green at least 150 kept 0 broken 1 undecided 0\nbroken 1 2024-03-04T07:00:14.8 from 2024-03-04T06:59:59.9 to 2024-03-04T07:00:14.8\n",
    ),
    // Both phases are red at 06:00:10.0 and phase 2 is green at 06:00:40.0, with ten seconds
    // between unknown.
    (
        CROSSING,
        "blank 2024-03-04T06:00:20.0 2024-03-04T06:00:30.0\nload 0 f\naudit\n",
        [
            "7,2024-03-04 06:00:10.0,12,2\n7,2024-03-04 06:00:10.0,12,4\n7,2024-03-04 06:00:40.0,1,2\n",
            "",
        ],
        "1 ok moved 0 1\n2 ok rows 3 repeats 0 moved 0 2\n3 audit\nrule 1 conflict 2 4 kept 1 broken 0 undecided 3\nundecided 1 2024-03-04T06:00:00.0\nundecided 1 2024-03-04T06:00:30.0\nundecided 1 2024-03-04T06:00:40.0\n",
    ),
    // Nothing happened there.
    (
        CROSSING,
        "load 0 f\naudit\n",
        [
            "7,2024-03-04 06:00:10.0,12,2\n7,2024-03-04 06:00:10.0,12,4\n7,2024-03-04 06:00:40.0,1,2\n",
            "",
        ],
        "1 ok rows 3 repeats 0 moved 0 2\n2 audit\nrule 1 conflict 2 4 kept 2 broken 0 undecided 1\nundecided 1 2024-03-04T06:00:00.0\n",
    ),
    // Phase 4 went green while phase 2 was on.
    (
        CROSSING,
        "load 0 f\naudit\n",
        [
            "7,2024-03-04 06:00:10.0,12,2\n7,2024-03-04 06:00:10.0,12,4\n7,2024-03-04 06:00:25.0,0,2\n7,2024-03-04 06:00:25.0,1,4\n7,2024-03-04 06:00:40.0,1,2\n",
            "",
        ],
        "1 ok rows 5 repeats 0 moved 0 2\n2 audit\nrule 1 conflict 2 4 kept 1 broken 2 undecided 1\nundecided 1 2024-03-04T06:00:00.0\nbroken 1 2024-03-04T06:00:25.0 from 2024-03-04T06:00:25.0 to 2024-03-04T06:00:25.0\nbroken 1 2024-03-04T06:00:40.0 from 2024-03-04T06:00:25.0 to 2024-03-04T06:00:40.0\n",
    ),
];

#[test]
fn a_hole_that_may_be_filled_both_ways(rt: HostRuntime) -> Result<(), Fail> {
    for (config, script, files, text) in HOLES {
        let (end, said) = script_ran(rt.alloc(), config, script, files)?;
        let found = (end, said.as_slice());
        assert_eq!(rt; found, (Status::Done, text.as_bytes()), "of {script}");
    }
    Ok(())
}
