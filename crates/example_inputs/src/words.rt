use command_line::{Refused, Request, parse_words};
use std::alloc::Global;
use std::test::Fail;

// The program's name and these words, with `|` between two.
fn split_words<'a>(alloc: Global, words: &'a str) -> Result<Vec<&'a str>, Fail> {
    let mut all = Vec::new(alloc);
    all.push("sigaudit")?;
    for word in words.split('|') {
        all.push(word)?;
    }
    Ok(all)
}

#[test]
fn words_in_any_order(rt: HostRuntime) -> Result<(), Fail> {
    let run = Ok(Request::Run("c", "s"));
    let pairs = Ok(Request::Pairs("c", "s", 1, "3/4/2024T6:02:00"));
    let count = Ok(Request::Count("f", "7", 19_786, 6));
    let pack = Ok(Request::Pack("f", "7", 19_786, 6));
    let usage = Err(Refused::Usage);
    for (words, wanted) in [
        ("--config|c|--script|s|--", run),
        ("--script=s|--config|c", run),
        ("--hour=2024-03-04T06|--count=f|--signal|7", count),
        ("--signal=7|--hour=2024-03-04T06|--pack|f", pack),
        ("--pack=f|--count=f|--signal=7|--hour=2024-03-04T06", usage),
        (
            "--at|3/4/2024T6:02:00|--rule=000001|--script=s|--config=c",
            pairs,
        ),
        (
            "--at=3/4/2024 6:02:00|--rule=1|--script=s|--config=c",
            usage,
        ),
        (
            "--at=3/4/2024T6:02:00|--rule=0000001|--script=s|--config=c",
            usage,
        ),
        ("--rule=1|--script=s|--config=c", usage),
        ("--config|c", usage),
        ("--config|c|--script|s|--help", usage),
        ("--config|c|--config|c|--script|s", usage),
        ("--count=f|--signal=7|--hour=2024-03-04T24", usage),
        ("--demo|007", Ok(Request::Demo(7))),
        ("--demo=168|--", Ok(Request::Demo(168))),
        ("--demo=169", usage),
        ("--demo=0", usage),
        ("--demo=0001", usage),
        ("--demo=+1", usage),
        ("--demo=1|--signal=7", usage),
    ] {
        let all = split_words(rt.alloc(), words)?;
        assert_eq!(rt; parse_words(rt.alloc(), &all), wanted, "of {words}");
    }
    Ok(())
}
