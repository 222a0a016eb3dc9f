// An hour's rows are held, opened, put anew and taken out.
use hour_store::HourStore;
use sig_base::{HourRows, Reads, Row};
use std::alloc::Global;
use std::test::Fail;

#[derive(Drop)]
struct Mark;

const FIRST: Row = Row {
    at: 36_000,
    code: 1,
    param: 2,
};

// So many equal rows of hour 1.
fn rows_of(alloc: Global, count: usize) -> Result<HourRows<Mark>, Fail> {
    let rows = vec![in alloc; FIRST; count]?;
    let rows = HourRows::new(1, rows, 0).ok_or("rows")?;
    Ok(rows)
}

// Puts the rows, and answers how many the hour held before and how many are held now.
fn put(store: &mut HourStore<Mark>, rows: HourRows<Mark>) -> (Option<u32>, u64) {
    if rows.hour() >= store.hours() {
        return (None, 0);
    }
    let before = store.put(rows).map(|rows| rows.len());
    (before, store.rows_held())
}

// How many rows of an hour come out, and how often both hours were opened then.
fn opened(
    store: &HourStore<Mark>,
    hour: u32,
    reads: &mut Reads<Mark>,
) -> (Option<usize>, [u64; 2]) {
    if hour >= store.hours() {
        return (None, [0, 0]);
    }
    let rows = store.open_hour(hour, reads).map(|rows| rows.len());
    (rows, [reads.count(0), reads.count(1)])
}

fn store_of_two(alloc: Global) -> Result<HourStore<Mark>, Fail> {
    let mut store = HourStore::new(alloc, 2)?;
    put(&mut store, rows_of(alloc, 2)?);
    Ok(store)
}

// Rows come out only with a rise of their hour's count, held or not.
#[test]
fn openings_are_counted(rt: HostRuntime) -> Result<(), Fail> {
    let store = store_of_two(rt.alloc())?;
    let mut reads = Reads::new(Mark);
    assert_eq!(rt; opened(&store, 0, &mut reads), (None, [1, 0]));
    assert_eq!(rt; opened(&store, 1, &mut reads), (Some(2), [1, 1]));
    Ok(())
}

// Rows are held in place of older ones.
#[test]
fn an_hour_is_put_anew(rt: HostRuntime) -> Result<(), Fail> {
    let mut store = store_of_two(rt.alloc())?;
    let rows = rows_of(rt.alloc(), 1)?;
    assert_eq!(rt; put(&mut store, rows), (Some(2), 1));
    Ok(())
}

// Takes hour 1 out, and answers how many rows it had, whether it is held and how many rows are.
fn taken(store: &mut HourStore<Mark>) -> (Option<u32>, bool, u64) {
    if store.hours() < 2 {
        return (None, false, 0);
    }
    let rows = store.take(1).map(|rows| rows.len());
    (rows, store.is_held(1), store.rows_held())
}

#[test]
fn an_hour_is_taken_out(rt: HostRuntime) -> Result<(), Fail> {
    let mut store = store_of_two(rt.alloc())?;
    assert_eq!(rt; taken(&mut store), (Some(2), false, 0));
    Ok(())
}
