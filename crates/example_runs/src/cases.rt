use sigaudit::Status;

// A counted file of 2024-03-04T06, how the count ends, and what it prints.
pub const COUNTED: [(&str, Status, &str); 9] = [
    (
        "7,2024-03-04 06:00:00.0,1,2\n7,2024-03-04 06:00:30.5,8,2\n",
        Status::Done,
        "rows 2 repeats 0\ncode 1 Begin Green 1\ncode 8 Begin Yellow Clearance 1\n",
    ),
    (
        "SignalID,Timestamp,EventCode,EventParam\r\n7,3/4/2024 6:00:30.5,8,2\r\n7, 2024-03-04T06:00:00.09 ,1,2\r\n7,2024-03-04 06:00:30.5,8,2\r\n",
        Status::Done,
        "rows 2 repeats 1\ncode 1 Begin Green 1\ncode 8 Begin Yellow Clearance 1\n",
    ),
    ("", Status::Done, "rows 0 repeats 0\n"),
    (
        "7,2024-03-04 06:00:10.0,1",
        Status::SomeRefused,
        "refused row 1 fields\n",
    ),
    (
        "7,2024-03-04 06:00:10.0,1,2\n8,2024-03-04 06:00:10.0,1,2\n",
        Status::SomeRefused,
        "refused row 2 wrong signal\n",
    ),
    (
        "7,2024-02-30 06:00:00.0,1,2\n",
        Status::SomeRefused,
        "refused row 1 stamp\n",
    ),
    (
        "7,2024-03-04 07:00:00.0,1,2\n",
        Status::SomeRefused,
        "refused row 1 outside hour\n",
    ),
    (
        "7,2024-03-04 06:00:00.0,-1,2\n",
        Status::SomeRefused,
        "refused row 1 code\n",
    ),
    (
        "7,2024-03-04 06:00:00.0,1,65536\n",
        Status::SomeRefused,
        "refused row 1 param\n",
    ),
];

// A window of two hours.
pub const CONFIG: &str =
    "signal = \"7\"\nstart = \"2024-03-04T06\"\nhours = 2\n[[phase]]\nnumber = 2\nring = 1\nside = 1\n";

// A configuration, a script, how the run ends, and what it prints.
pub const SCRIPTS: [(&str, &str, Status, &str); 4] = [
    (CONFIG, "", Status::Done, ""),
    (
        CONFIG,
        "load 0 e\nblank 2024-03-04T06:00:00.0 2024-03-04T06:00:10.0\nmeasures",
        Status::Done,
        "1 ok rows 0 repeats 0 moved 0 2\n2 ok moved 0 2\n3 measures\nheld 1 rows 0 known 35900\nphase 2 services 0 least - greatest - sum 0 gap 0 max 0 force 0 unlogged 0 cycles 0 cycle_sum 0\n",
    ),
    (
        CONFIG,
        "# twice\r\nload 0 f\r\nload 0 f\r\nreplace 0 none\r\nload 2 f\r\nlod 0 f\r\nmeasures 0\r\nwithdraw 0\r\nmeasures 2\r\n",
        Status::SomeRefused,
        "2 ok rows 1 repeats 1 moved 0 2\n3 refused already held\n4 refused missing file\n5 refused out of window\n6 refused bad line\n7 measures 0\nheld 1 rows 1 known 36000\nphase 2 services 0 least - greatest - sum 0 gap 0 max 0 force 0 unlogged 0 cycles 0 cycle_sum 0\n8 ok moved 0 2\n9 refused out of window\n",
    ),
    (
        "signal = \"7\"\nstart = \"2024-03-04T06\"\n",
        "",
        Status::BadConfig,
        "config refused: missing top.hours\n",
    ),
];
