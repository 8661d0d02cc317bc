// Registers over rows that are fit for them or not.
use register::{Outcome, Refusal, Register};
use runs::run;
use std::process::Abort;
use std::test::Fail;
use stores::mixed::{eight_row, pair_row, single_row};
use stores::{Join, Row, Store};

// Every call and the question answer the number of the opening.
fn refuses<R: Row + Drop>(rt: &impl Abort, row: R, number: u8) -> Result<(), Fail> {
    let mut register = Register::open(row);
    let mut buffer = [9; 2];
    assert_eq!(rt; answer(register.down(0)), number);
    assert_eq!(rt; answer(register.up(9)), number);
    assert_eq!(rt; answer(register.tidy(0)), number);
    assert_eq!(rt; answer(register.read(9, &[], &mut buffer)), number);
    assert!(rt; buffer[0] == 9 && buffer[1] == 9);
    assert_eq!(rt; answer(register.value(0, 0).map(|_| ())), number);
    Ok(())
}

fn answer(answered: Result<(), Refusal>) -> u8 {
    Outcome::of(answered).number()
}

#[test]
fn rows_that_are_not_fit(rt: HostRuntime) -> Result<(), Fail> {
    let heap = rt.alloc();
    refuses(
        &rt,
        Join {
            first: eight_row(heap, 2)?,
            second: single_row(heap, 2)?,
        },
        20,
    )?;
    refuses(&rt, single_row(heap, 0)?, 21)?;
    refuses(
        &rt,
        Join {
            first: pair_row(heap, 2)?,
            second: single_row(heap, 3)?,
        },
        21,
    )?;
    let mut row = pair_row(heap, 2)?;
    assert!(rt; row.put(1, 1, 8) == Some(Ok(())));
    refuses(&rt, row, 22)
}

#[test]
fn a_short_buffer_is_left_alone(rt: HostRuntime) -> Result<(), Fail> {
    let mut register = Register::open(pair_row(rt.alloc(), 4)?);
    let mut buffer = [9; 3];
    assert_eq!(rt; answer(register.read(1, &[0, 1, 2, 3], &mut buffer)), 7);
    assert!(rt; buffer[0] == 9 && buffer[1] == 9 && buffer[2] == 9);
    assert_eq!(rt; answer(register.read(1, &[0, 3], &mut buffer)), 0);
    assert!(rt; buffer[0] == 0 && buffer[1] == 0 && buffer[2] == 9);
    assert_eq!(rt; answer(register.down(1)), 0);
    // a machine that is down still tells its copy
    assert!(rt; register.value(1, 3) == Ok(0));
    Ok(())
}

// A file for one object, over a row of stores with two.
#[test]
fn a_file_for_another_object_count(rt: HostRuntime) -> Result<(), Fail> {
    let heap = rt.alloc();
    let file = b"\x02\0\0\0\x01\0\0\0\0\0\0\0\x14\0\0\0\x05\0\0\0";
    let Ok(finished) = run(heap, file, pair_row(heap, 2)?) else {
        return Err(Fail::new("out of memory"));
    };
    let Some(fault) = finished.fault else {
        return Err(Fail::new("the row does not fit"));
    };
    assert_eq!(rt; fault.number(), 37);
    assert_eq!(rt; fault.byte(), 4);
    assert_eq!(rt; fault.step(), None);
    Ok(())
}

// 256 objects over a journal that is full before loading: it is tidied at the first write, and again at none.
#[test]
fn a_journal_that_is_full_while_loading(rt: HostRuntime) -> Result<(), Fail> {
    let heap = rt.alloc();
    let mut row = pair_row(heap, 256)?;
    for _ in 0..512 {
        assert!(rt; row.put(1, 255, 1) == Some(Ok(())));
    }
    let mut file = [2, 0, 0, 0, 0, 1, 0, 0, 0, 0, 0, 0, 16, 4, 0, 0].to_vec(heap)?;
    for object in 0..256u32 {
        file.extend_from_slice(&(object * 3).to_le_bytes())?;
    }
    let Ok(finished) = run(heap, file.as_slice(), row) else {
        return Err(Fail::new("out of memory"));
    };
    assert!(rt; finished.fault.is_none());
    for object in 0..256usize {
        assert!(rt; finished.register.value(1, object) == Ok(object as u32 * 3));
    }
    Ok(())
}
