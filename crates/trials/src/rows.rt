// Rows and stores.
ghost use Rattle.std.specs.Prelude.{List};
ghost use Rattle.trials.specs.Bare.{bare_row};
ghost use Rattle.trials.specs.BareRows.{floors};

use std::process::Abort;
use std::test::Fail;
use stores::mixed::pair_row;
use stores::{Join, PutRefusal, Row, Store, write};

// A row of stores without objects, as many as are counted, with the least floor that there may be.
#[derive(Drop)]
struct Bare {
    count: u16,
}

impl Row for Bare {
    ghost stores = { λ r. bare_row r.count };

    ghost floors_are_ample = { λ row. floors row.count };

    fn count(&self) -> u8 {
        self.count.min(255) as u8
    }

    fn object_count(&self, place: u8) -> Option<usize> {
        (place < self.count()).then_some(0)
    }

    fn value(&self, _place: u8, _object: usize) -> Option<u32> {
        None
    }

    fn remaining(&self, place: u8) -> Option<u32> {
        (place < self.count()).then_some(64)
    }

    fn put(&mut self, place: u8, _object: usize, _value: u32) -> Option<Result<(), PutRefusal>> {
        (place < self.count()).then_some(Err(PutRefusal::NoSuchObject))
    }

    fn tidy(&mut self, place: u8) -> Option<()> {
        (place < self.count()).then_some(())
    }
}

// The row has `count` places of these stores and no more, though it has more stores.
fn has_places<R: Row + Drop>(rt: &impl Abort, row: R, count: u8) {
    let mut row = row;
    assert_eq!(rt; row.count(), count);
    assert_eq!(rt; row.remaining(0), Some(64));
    assert_eq!(rt; row.remaining(count - 1), Some(64));
    assert_eq!(rt; row.remaining(count), None);
    assert!(rt; row.put(count - 1, 0, 7) == Some(Err(PutRefusal::NoSuchObject)));
    assert!(rt; row.put(count, 0, 7) == None);
    assert_eq!(rt; row.tidy(count - 1), Some(()));
    assert_eq!(rt; row.tidy(count), None);
}

#[test]
fn a_long_row_says_255(rt: HostRuntime) {
    has_places(
        &rt,
        Join {
            first: Bare { count: 100 },
            second: Bare { count: 154 },
        },
        254,
    );
    has_places(
        &rt,
        Join {
            first: Bare { count: 100 },
            second: Bare { count: 155 },
        },
        255,
    );
    has_places(
        &rt,
        Join {
            first: Bare { count: 200 },
            second: Bare { count: 56 },
        },
        255,
    );
    has_places(
        &rt,
        Join {
            first: Bare { count: 300 },
            second: Bare { count: 1 },
        },
        255,
    );
    has_places(
        &rt,
        Join {
            first: Bare { count: 1 },
            second: Bare { count: 300 },
        },
        255,
    );
}

#[test]
fn a_journal_fills_and_is_tidied(rt: HostRuntime) -> Result<(), Fail> {
    let mut row = pair_row(rt.alloc(), 3)?;
    for i in 0..512u32 {
        assert!(rt; row.put(1, 2, i) == Some(Ok(())));
    }
    assert_eq!(rt; row.remaining(1), Some(0));
    assert!(rt; row.put(1, 3, 9) == Some(Err(PutRefusal::NoSuchObject)));
    assert!(rt; row.put(1, 2, 9) == Some(Err(PutRefusal::NoRoom)));
    assert_eq!(rt; row.value(1, 2), Some(511));
    write(&mut row, 1, 0, 4);
    assert_eq!(rt; row.remaining(1), Some(511));
    assert_eq!(rt; row.value(1, 2), Some(511));
    assert_eq!(rt; row.value(1, 0), Some(4));
    assert_eq!(rt; row.remaining(0), Some(1024));
    assert_eq!(rt; row.tidy(1), Some(()));
    assert_eq!(rt; row.remaining(1), Some(512));
    assert_eq!(rt; row.value(1, 0), Some(4));
    Ok(())
}
