// The same edits where their numbers wait.
use super::configured::THREE_HOURS;
use super::{MOVES, Step, counts, edit_of};
use crate::held::Mark;
use ring_config::read_config;
use session::Draft;
use sig_base::Reads;
use std::alloc::Global;
use std::test::Fail;

// A window of three hours that holds nothing.
fn begun(alloc: Global) -> Result<Draft<Mark>, Fail> {
    let draft = Draft::new(alloc, read_config(alloc, THREE_HOURS.as_bytes())?)?;
    Ok(draft)
}

// Makes an edit whose numbers may wait.
fn make(
    alloc: Global,
    draft: &mut Draft<Mark>,
    step: Step,
    reads: &mut Reads<Mark>,
) -> Result<(), Fail> {
    let edit = edit_of(alloc, step)?;
    draft
        .apply(edit, true, reads)
        .map_err(|_error| "an edit is refused")?;
    Ok(())
}

// The held hours, their rows and the known tenths, once no numbers wait.
fn settled(draft: &mut Draft<Mark>, reads: &mut Reads<Mark>) -> Result<[u64; 3], Fail> {
    draft.settle(reads)?;
    let total = draft.report().total();
    Ok([total.held_hours(), total.held_rows(), total.known_tenths()])
}

// How often each hour was opened by the edits, and with the numbers that waited; then the held
// hours, their rows and the known tenths.
fn move_hours(alloc: Global, draft: &mut Draft<Mark>) -> Result<[[u64; 3]; 3], Fail> {
    let mut reads = Reads::new(Mark);
    for (step, _from, _to, _opened) in MOVES {
        make(alloc, draft, step, &mut reads)?;
    }
    let edits = counts(&reads);
    let held = settled(draft, &mut reads)?;
    Ok([edits, counts(&reads), held])
}

fn moved_hours(alloc: Global) -> Result<[[u64; 3]; 3], Fail> {
    let mut draft = begun(alloc)?;
    move_hours(alloc, &mut draft)
}

// The three loads are worked out at once. Each of the four edits after them opens the hour that it
// touches going forward and back, and one after that once. At the end the numbers of the first two
// hours wait.
#[test]
fn numbers_wait(rt: HostRuntime) -> Result<(), Fail> {
    let wanted = [[7, 9, 4], [8, 10, 4], [2, 4, 71_999]];
    assert_eq!(rt; moved_hours(rt.alloc())?, wanted);
    Ok(())
}

// Three hours, with five tenths of the second one blanked.
const BLANKED: [Step; 4] = [
    Step::Load(0),
    Step::Load(1),
    Step::Load(2),
    Step::Blank(36_005, 36_010),
];

// How often each hour was opened up to then, once all tenths of the window are unblanked, and with
// the numbers that waited; then the held hours, their rows and the known tenths.
fn unblank(alloc: Global, draft: &mut Draft<Mark>) -> Result<[[u64; 3]; 4], Fail> {
    let mut reads = Reads::new(Mark);
    for step in BLANKED {
        make(alloc, draft, step, &mut reads)?;
    }
    let _before = settled(draft, &mut reads)?;
    let blanked = counts(&reads);
    make(alloc, draft, Step::Unblank(0, 108_000), &mut reads)?;
    let edited = counts(&reads);
    let held = settled(draft, &mut reads)?;
    Ok([blanked, edited, counts(&reads), held])
}

fn unblanked(alloc: Global) -> Result<[[u64; 3]; 4], Fail> {
    let mut draft = begun(alloc)?;
    unblank(alloc, &mut draft)
}

// All three hours move, since the range has them, and are opened going forward and back. Only the
// numbers of the second one, the one that had blanked tenths, wait.
#[test]
fn one_hour_of_a_range_waits(rt: HostRuntime) -> Result<(), Fail> {
    let wanted = [[3, 7, 4], [5, 9, 6], [5, 10, 6], [3, 6, 108_000]];
    assert_eq!(rt; unblanked(rt.alloc())?, wanted);
    Ok(())
}
