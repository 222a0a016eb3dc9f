use script_lines::{Line, PlainEdit, read_line, split_line};
use sig_base::Window;

#[test]
fn lines_of_a_script(rt: HostRuntime) {
    let Some(window) = Window::new(19_786, 6, 2) else {
        assert!(rt; false);
        return;
    };
    let mut rest: &[u8] =
        b"# a day\r\n load 0  h06.csv \n\nwithdraw 000001\r\nblank 2024-03-04T06:00:00.0 3/4/2024T6:00:10\nmeasures 1\nmeasures 1 2\nload 0 a b\nload 1234567 f\nlod 0 f\naudit\n verdicts  001\naudit 0\nverdicts\nlod 0 f\rmeasures\n\tmeasures\npoints 2\npoints 02\r\npoints\npoints 100\npoints 2 3\n points  7\noffsets NB\n offsets  2 \r\noffsets\noffsets NB SB\noffset NB\nmeasures\r";
    for wanted in [
        Line::Skip,
        Line::Load(0, "h06.csv"),
        Line::Skip,
        Line::Edit(PlainEdit::Withdraw(1)),
        Line::Edit(PlainEdit::Blank(0, 100)),
        Line::MeasuresOf(1),
        Line::Bad,
        Line::Bad,
        Line::Bad,
        Line::Bad,
        Line::Audit,
        Line::Verdicts(1),
        Line::Bad,
        Line::Bad,
        Line::Bad,
        Line::Bad,
        Line::Points(2),
        Line::Points(2),
        Line::Bad,
        Line::Bad,
        Line::Bad,
        Line::Points(7),
        Line::Offsets("NB"),
        Line::Offsets("2"),
        Line::Bad,
        Line::Bad,
        Line::Bad,
        Line::Bad,
    ] {
        let (line, after) = split_line(rest);
        assert_eq!(rt; read_line(line, &window), wanted);
        rest = after;
    }
    assert!(rt; rest.is_empty());
}
