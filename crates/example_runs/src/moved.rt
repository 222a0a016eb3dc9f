use crate::given::script_ran;
use sigaudit::Status;
use std::test::Fail;

// A script that puts the first of two hours, with phase 2, once by the file f and once by g: a
// configuration, the files, and what is printed.
const MOVED: [(&str, [&str; 2], &str); 4] = [
    // The service ends two seconds before the point. By g it has no begin of green.
    (
        "signal = \"7\"\nstart = \"2024-03-04T06\"\nhours = 2\n[[phase]]\nnumber = 2\nring = 1\nside = 1\n",
        [
            "7,2024-03-04 06:01:40.0,1,2\n7,2024-03-04 06:02:00.0,8,2\n7,2024-03-04 06:59:58.0,9,2\n",
            "7,2024-03-04 06:02:00.0,8,2\n7,2024-03-04 06:59:58.0,9,2\n",
        ],
        "1 ok rows 3 repeats 0 moved 0 2\n2 ok rows 2 repeats 0 moved 0 2\n",
    ),
    // It ends five seconds before the point: there its red window is over.
    (
        "signal = \"7\"\nstart = \"2024-03-04T06\"\nhours = 2\n[[phase]]\nnumber = 2\nring = 1\nside = 1\n",
        [
            "7,2024-03-04 06:01:40.0,1,2\n7,2024-03-04 06:02:00.0,8,2\n7,2024-03-04 06:59:55.0,9,2\n",
            "7,2024-03-04 06:02:00.0,8,2\n7,2024-03-04 06:59:55.0,9,2\n",
        ],
        "1 ok rows 3 repeats 0 moved 0 2\n2 ok rows 2 repeats 0 moved 0 1\n",
    ),
    // At a stop bar it ends three seconds before the point. By g its green ends by another cause.
    (
        "signal = \"7\"\nstart = \"2024-03-04T06\"\nhours = 2\n[[phase]]\nnumber = 2\nring = 1\nside = 1\n[[approach]]\nname = \"NB\"\nphase = 2\nstop_bar = 22\n",
        [
            "7,2024-03-04 06:58:20.0,1,2\n7,2024-03-04 06:59:10.0,4,2\n7,2024-03-04 06:59:10.0,8,2\n7,2024-03-04 06:59:57.0,9,2\n",
            "7,2024-03-04 06:58:20.0,1,2\n7,2024-03-04 06:59:10.0,5,2\n7,2024-03-04 06:59:10.0,8,2\n7,2024-03-04 06:59:57.0,9,2\n",
        ],
        "1 ok rows 4 repeats 0 moved 0 2\n2 ok rows 4 repeats 0 moved 0 1\n",
    ),
    // By g its green ends at the same tenth by another row.
    (
        "signal = \"7\"\nstart = \"2024-03-04T06\"\nhours = 2\n[[phase]]\nnumber = 2\nring = 1\nside = 1\n[[approach]]\nname = \"NB\"\nphase = 2\nstop_bar = 22\n",
        [
            "7,2024-03-04 06:58:20.0,1,2\n7,2024-03-04 06:59:10.0,7,2\n7,2024-03-04 06:59:10.0,8,2\n7,2024-03-04 06:59:57.0,9,2\n",
            "7,2024-03-04 06:58:20.0,1,2\n7,2024-03-04 06:59:10.0,8,2\n7,2024-03-04 06:59:10.0,7,2\n7,2024-03-04 06:59:57.0,9,2\n",
        ],
        "1 ok rows 4 repeats 0 moved 0 2\n2 ok rows 4 repeats 0 moved 0 2\n",
    ),
];

#[test]
fn services_that_cross_the_point_between_hours(rt: HostRuntime) -> Result<(), Fail> {
    for (config, files, text) in MOVED {
        let (end, said) = script_ran(rt.alloc(), config, "load 0 f\nreplace 0 g\n", files)?;
        let found = (end, said.as_slice());
        assert_eq!(rt; found, (Status::Done, text.as_bytes()), "of {text}");
    }
    Ok(())
}
