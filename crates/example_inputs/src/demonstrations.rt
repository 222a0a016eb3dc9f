// The files of a demonstration of two hours.
use demonstration::Demo;
use std::alloc::Global;
use std::test::Fail;

const FIRST: &[u8] = b"SignalID,Timestamp,EventCode,EventParam
9000,2024-01-01 00:00:00.0,0,2
9000,2024-01-01 00:00:00.0,1,2
9000,2024-01-01 00:00:08.4,82,5
9000,2024-01-01 00:00:09.5,81,5
9000,2024-01-01 00:00:13.8,5,2
9000,2024-01-01 00:00:13.8,7,2
9000,2024-01-01 00:00:13.8,8,2
9000,2024-01-01 00:00:17.3,9,2
9000,2024-01-01 00:00:17.3,10,2
9000,2024-01-01 00:00:18.3,82,5
9000,2024-01-01 00:00:18.8,0,4
";

const SCRIPT: &[u8] = b"load 0 0
load 1 1
blank 2024-01-01T00:30:00.0 2024-01-01T00:30:10.0
withdraw 1
measures
load 1 1
unblank 2024-01-01T00:00:00.0 2024-01-01T02:00:00.0
measures
";

fn file_of_two(alloc: Global, name: &str) -> Result<Option<Vec<u8>>, Fail> {
    let demo = Demo::new(alloc, 2)?;
    Ok(demo.file(alloc, name)?)
}

#[test]
fn the_script(rt: HostRuntime) -> Result<(), Fail> {
    let script = file_of_two(rt.alloc(), "script")?.ok_or("script")?;
    assert_eq!(rt; script.as_slice(), SCRIPT);
    Ok(())
}

#[test]
fn how_files_begin(rt: HostRuntime) -> Result<(), Fail> {
    for (name, front) in [
        ("0", FIRST),
        (
            "config",
            b"signal = \"9000\"\nstart = \"2024-01-01T00\"\nhours = 2\n".as_slice(),
        ),
    ] {
        let file = file_of_two(rt.alloc(), name)?.ok_or("file")?;
        assert!(rt; file.starts_with(front), "of {name}");
    }
    Ok(())
}

#[test]
fn no_other_files(rt: HostRuntime) -> Result<(), Fail> {
    for name in ["2", "00", "", "Config"] {
        assert!(rt; file_of_two(rt.alloc(), name)?.is_none(), "of {name}");
    }
    Ok(())
}
