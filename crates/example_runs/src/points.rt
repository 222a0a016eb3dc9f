use crate::given::script_ran;
use sigaudit::Status;
use std::test::Fail;

// Phase 2 with an approach, and a phase that isn't configured: configuration, script, the files f
// and g, and what is printed. First an hour in which the phase is green from 06:00:30.0 to
// 06:01:05.0 and from 06:02:30.0 to 06:03:05.0, with both detectors. Then two hours with a cycle
// across the point between them, and a vehicle after some seconds that are blanked.
const APPROACHED: [(&str, &str, [&str; 2], &str); 2] = [
    (
        "signal = \"7\"\nstart = \"2024-03-04T06\"\nhours = 1\n[[phase]]\nnumber = 2\nring = 1\nside = 1\n[[interval]]\nchannel = \"phase 2\"\ncolour = \"Green\"\nat_least = 100\n[[approach]]\nname = \"NB\"\nphase = 2\nadvance = 21\nstop_bar = 22\n",
        "load 0 f\naudit\nmeasures\npoints 2\npoints 4\n",
        [
            "7,2024-03-04 06:00:20.0,82,22\n7,2024-03-04 06:00:30.0,0,2\n7,2024-03-04 06:00:30.0,1,2\n7,2024-03-04 06:00:35.0,82,21\n7,2024-03-04 06:00:35.5,81,21\n7,2024-03-04 06:01:02.0,81,22\n7,2024-03-04 06:01:05.0,6,2\n7,2024-03-04 06:01:05.0,7,2\n7,2024-03-04 06:01:05.0,8,2\n7,2024-03-04 06:01:08.0,82,22\n7,2024-03-04 06:01:08.5,9,2\n7,2024-03-04 06:01:08.5,10,2\n7,2024-03-04 06:01:10.0,11,2\n7,2024-03-04 06:01:10.0,12,2\n7,2024-03-04 06:01:14.0,81,22\n7,2024-03-04 06:02:00.0,82,21\n7,2024-03-04 06:02:00.5,81,21\n7,2024-03-04 06:02:30.0,0,2\n7,2024-03-04 06:02:30.0,1,2\n7,2024-03-04 06:02:31.0,82,21\n7,2024-03-04 06:02:31.5,81,21\n7,2024-03-04 06:03:05.0,6,2\n7,2024-03-04 06:03:05.0,7,2\n7,2024-03-04 06:03:05.0,8,2\n7,2024-03-04 06:03:08.5,9,2\n7,2024-03-04 06:03:08.5,10,2\n7,2024-03-04 06:03:10.0,11,2\n7,2024-03-04 06:03:10.0,12,2\n",
            "",
        ],
        "1 ok rows 28 repeats 0 moved 0 1\n2 audit\nrule 1 phase 2 Green at least 100 kept 2 broken 0 undecided 0\n3 measures\nheld 1 rows 28 known 36000\nphase 2 services 2 least 385 greatest 385 sum 770 gap 0 max 0 force 2 unlogged 0 cycles 1 cycle_sum 1200\napproach NB arrivals 3 green 2 not 1 undecided 0 unseen 0 fault 0 share 2/3 platoon 1200/700\napproach NB actuations 2 red 1 not 1 undecided 0 fault 0\napproach NB splits 2 fail 1 pass 1 undecided 0 open 0 fault 0\n4 points 2\ncycle 2024-03-04T06:01:08.5 length 1200 green 815 yellow 1165\npoint NB 515\npoint NB 825\n5 refused bad line\n",
    ),
    (
        "signal = \"7\"\nstart = \"2024-03-04T06\"\nhours = 2\n[[phase]]\nnumber = 2\nring = 1\nside = 1\n[[approach]]\nname = \"NB\"\nphase = 2\nadvance = 21\n",
        "load 0 f\nload 1 g\nblank 2024-03-04T07:10:00.0 2024-03-04T07:10:10.0\nmeasures 0\nmeasures 1\npoints 2\npoints 4\n",
        [
            "7,2024-03-04 06:59:30.0,1,2\n7,2024-03-04 06:59:40.0,8,2\n7,2024-03-04 06:59:43.5,9,2\n7,2024-03-04 06:59:45.0,82,21\n7,2024-03-04 06:59:55.0,1,2\n7,2024-03-04 06:59:58.0,82,21\n",
            "7,2024-03-04 07:00:01.0,82,21\n7,2024-03-04 07:00:10.0,8,2\n7,2024-03-04 07:00:13.5,9,2\n7,2024-03-04 07:00:20.0,82,21\n7,2024-03-04 07:10:15.0,82,21\n",
        ],
        "1 ok rows 6 repeats 0 moved 0 2\n2 ok rows 5 repeats 0 moved 0 2\n3 ok moved 1 2\n4 measures 0\nheld 1 rows 6 known 36000\nphase 2 services 1 least 135 greatest 135 sum 135 gap 0 max 0 force 0 unlogged 1 cycles 0 cycle_sum 0\napproach NB arrivals 2 green 1 not 1 undecided 0 unseen 0 fault 0 share 1/2 platoon -\n5 measures 1\nheld 1 rows 5 known 35900\nphase 2 services 1 least 185 greatest 185 sum 185 gap 0 max 0 force 0 unlogged 1 cycles 1 cycle_sum 300\napproach NB arrivals 3 green 1 not 1 undecided 1 unseen 0 fault 0 share 1/3 platoon 600/450\n6 points 2\ncycle 2024-03-04T06:59:43.5 length 300 green 115 yellow 265\npoint NB 15\npoint NB 145\npoint NB 175\n7 refused bad line\n",
    ),
];

#[test]
fn arrivals_and_the_diagram_of_a_phase(rt: HostRuntime) -> Result<(), Fail> {
    for (config, script, files, text) in APPROACHED {
        let (end, said) = script_ran(rt.alloc(), config, script, files)?;
        let found = (end, said.as_slice());
        assert_eq!(rt;
            found,
            (Status::SomeRefused, text.as_bytes()),
            "of {script}"
        );
    }
    Ok(())
}
