use crate::given::script_ran;
use sigaudit::Status;
use std::test::Fail;

// A configuration, a script, the files f and g, and what is printed.
const MEASURED: [(&str, &str, [&str; 2], &str); 6] = [
    // A service across the point between two hours counts in the second.
    (
        "signal = \"7\"\nstart = \"2024-03-04T06\"\nhours = 2\n[[phase]]\nnumber = 2\nring = 1\nside = 1\n[[interval]]\nchannel = \"phase 2\"\ncolour = \"Green\"\nat_least = 150\n",
        "load 0 f\nload 1 g\nmeasures 1\nmeasures 0\n",
        [
            "7,2024-03-04 06:59:50.0,1,2\n",
            "7,2024-03-04 07:00:10.0,8,2\n7,2024-03-04 07:00:13.5,9,2\n",
        ],
        "1 ok rows 1 repeats 0 moved 0 2\n2 ok rows 2 repeats 0 moved 0 2\n3 measures 1\nheld 1 rows 2 known 36000\nphase 2 services 1 least 235 greatest 235 sum 235 gap 0 max 0 force 0 unlogged 1 cycles 0 cycle_sum 0\n4 measures 0\nheld 1 rows 1 known 36000\nphase 2 services 0 least - greatest - sum 0 gap 0 max 0 force 0 unlogged 0 cycles 0 cycle_sum 0\n",
    ),
    // A pedestrian waited 20 seconds for the second walk; what was before the first one isn't known.
    (
        "signal = \"7\"\nstart = \"2024-03-04T06\"\nhours = 1\n[[phase]]\nnumber = 2\nring = 1\nside = 1\n[[ped]]\nnumber = 2\n",
        "load 0 f\nmeasures\n",
        [
            "7,2024-03-04 06:00:10.0,21,2\n7,2024-03-04 06:00:20.0,23,2\n7,2024-03-04 06:00:30.0,45,2\n7,2024-03-04 06:00:50.0,21,2\n",
            "",
        ],
        "1 ok rows 4 repeats 0 moved 0 1\n2 measures\nheld 1 rows 4 known 36000\nphase 2 services 0 least - greatest - sum 0 gap 0 max 0 force 0 unlogged 0 cycles 0 cycle_sum 0\nped 2 walks 2 delays 1 sum 200 greatest 200 uncalled 0 partial 1 detector_on 0 detector_undecided 36000\n",
    ),
    // A tenth of a second between the call and the walk is blanked.
    (
        "signal = \"7\"\nstart = \"2024-03-04T06\"\nhours = 1\n[[phase]]\nnumber = 2\nring = 1\nside = 1\n[[ped]]\nnumber = 2\n",
        "blank 2024-03-04T06:00:40.0 2024-03-04T06:00:41.0\nload 0 f\nmeasures\n",
        [
            "7,2024-03-04 06:00:10.0,21,2\n7,2024-03-04 06:00:20.0,23,2\n7,2024-03-04 06:00:30.0,45,2\n7,2024-03-04 06:00:50.0,21,2\n",
            "",
        ],
        "1 ok moved 0 1\n2 ok rows 4 repeats 0 moved 0 1\n3 measures\nheld 1 rows 4 known 35990\nphase 2 services 0 least - greatest - sum 0 gap 0 max 0 force 0 unlogged 0 cycles 0 cycle_sum 0\nped 2 walks 2 delays 0 sum 0 greatest - uncalled 0 partial 2 detector_on 0 detector_undecided 35990\n",
    ),
    // Two calls: the delay runs from the first.
    (
        "signal = \"7\"\nstart = \"2024-03-04T06\"\nhours = 1\n[[phase]]\nnumber = 2\nring = 1\nside = 1\n[[ped]]\nnumber = 2\n",
        "load 0 f\nmeasures\n",
        [
            "7,2024-03-04 06:00:10.0,0,2\n7,2024-03-04 06:00:10.0,1,2\n7,2024-03-04 06:00:10.0,21,2\n7,2024-03-04 06:00:17.0,22,2\n7,2024-03-04 06:00:27.0,23,2\n7,2024-03-04 06:00:30.0,45,2\n7,2024-03-04 06:00:40.0,45,2\n7,2024-03-04 06:00:50.0,8,2\n7,2024-03-04 06:00:53.5,9,2\n7,2024-03-04 06:00:53.5,12,2\n7,2024-03-04 06:02:10.0,0,2\n7,2024-03-04 06:02:10.0,1,2\n7,2024-03-04 06:02:10.0,21,2\n",
            "",
        ],
        "1 ok rows 13 repeats 0 moved 0 1\n2 measures\nheld 1 rows 13 known 36000\nphase 2 services 1 least 435 greatest 435 sum 435 gap 0 max 0 force 0 unlogged 1 cycles 0 cycle_sum 0\nped 2 walks 2 delays 1 sum 1000 greatest 1000 uncalled 0 partial 1 detector_on 0 detector_undecided 36000\n",
    ),
    // A preempt's call, entry, track clearance, dwell and exit.
    (
        "signal = \"7\"\nstart = \"2024-03-04T06\"\nhours = 1\n[[preempt]]\nnumber = 1\n",
        "load 0 f\nmeasures\n",
        [
            "7,2024-03-04 06:00:10.0,104,1\n7,2024-03-04 06:00:10.0,111,1\n7,2024-03-04 06:00:50.0,102,1\n7,2024-03-04 06:00:51.0,105,1\n7,2024-03-04 06:00:52.0,106,1\n7,2024-03-04 06:01:00.0,107,1\n7,2024-03-04 06:01:30.0,104,1\n7,2024-03-04 06:01:30.0,111,1\n",
            "",
        ],
        "1 ok rows 8 repeats 0 moved 0 1\n2 measures\nheld 1 rows 8 known 36000\npreempt 1 entries 1 delays 1 sum 10 partial 0 dwells 1 dwell_sum 300 dwell_partial 1 input_on 400 input_undecided 100 rest 35510 entry 10 track 80 dwell 300 undecided 100\n",
    ),
    // The coordination is in step, and then in the local zero.
    (
        "signal = \"7\"\nstart = \"2024-03-04T06\"\nhours = 1\ncoordination = true\n",
        "load 0 f\nmeasures\n",
        [
            "7,2024-03-04 06:00:00.0,150,1\n7,2024-03-04 06:30:00.0,150,5\n",
            "",
        ],
        "1 ok rows 2 repeats 0 moved 0 1\n2 measures\nheld 1 rows 2 known 36000\ncoordination 0 0 1 18000 2 0 3 0 4 0 5 18000 6 0 undecided 0 patterns 0 cycle_changes 0 yields 0 begins 0\n",
    ),
];

#[test]
fn measures_of_phases_pedestrians_preempts_and_coordination(rt: HostRuntime) -> Result<(), Fail> {
    for (config, script, files, text) in MEASURED {
        let (end, said) = script_ran(rt.alloc(), config, script, files)?;
        let found = (end, said.as_slice());
        assert_eq!(rt; found, (Status::Done, text.as_bytes()), "of {script}");
    }
    Ok(())
}
