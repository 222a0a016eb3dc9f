ghost use Rattle.std.specs.Prelude.{◌≡◌};

use arrival_measures::Open;
use sig_base::Row;
use std::test::Fail;

fn row(at: u32, code: u8, param: u16) -> Row
    ensures { result.at ≡ at }
{
    Row { at, code, param }
}

// A cycle of phase 2 that is green from 150 to 250, whole and in two parts.
#[test]
fn adds_to_a_cycle(rt: HostRuntime) -> Result<(), Fail> {
    let rows = [
        row(100, 82, 5),
        row(150, 82, 5),
        row(150, 1, 2),
        row(249, 82, 5),
        row(250, 82, 5),
        row(250, 8, 2),
        row(299, 82, 5),
    ];
    let expected = Open {
        from: 100,
        arrivals: 5,
        green: 2,
        green_tenths: 100,
        is_green: false,
    };
    let cycle = Open::begin(100);
    assert_eq!(rt; cycle.over(2, 5, &rows, 100, 300), expected);
    let part = cycle.over(2, 5, &rows[..3], 100, 200);
    assert_eq!(rt; part.over(2, 5, &rows[3..], 200, 300), expected);
    Ok(())
}
