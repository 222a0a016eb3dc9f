use event_codes::{Channel, Group, Kind, channel_of, group_of, name_of};

#[test]
fn rows_of_a_log(rt: HostRuntime) {
    for (code, param, name, kind, number) in [
        (8, 2, "Begin Yellow Clearance", Kind::Phase, 2),
        (21, 16, "Begin Walk", Kind::Ped, 16),
        (82, 128, "Detector On", Kind::Detector, 128),
        (84, 5, "Detector Fault Other", Kind::Detector, 5),
        (150, 5, "Coord Cycle State Change", Kind::Coordination, 0),
    ] {
        let channel = Channel { kind, number };
        assert_eq!(rt; name_of(code), name);
        assert_eq!(rt; channel_of(code, param), Some(channel));
        assert_eq!(rt; group_of(code, param), Group::Of(channel));
    }
    assert_eq!(rt; name_of(3), "Min Complete");
    assert_eq!(rt; name_of(200), "Other");
    assert_eq!(rt; group_of(1, 17), Group::Alone { code: 1, param: 17 });
}
