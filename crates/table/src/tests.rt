// A full table, and two rows with one key.
ghost use Rattle.std.specs.Prelude.{◌==◌};

use crate::{Full, Keyed, Table, first};

#[derive(Clone, Copy)]
struct Row {
    key: u8,
    worth: u8,
}

impl Keyed<u8> for Row {
    ghost keyed = { λ row key. (row.key == key) };

    fn has_key(&self, key: u8) -> bool {
        self.key == key
    }
}

#[test]
fn a_full_table_stays_as_it_is(rt: HostRuntime) {
    let mut table = Table::<u8, 2>::new(0);
    assert_eq!(rt; table.push(5), Ok(()));
    assert_eq!(rt; table.push(6), Ok(()));
    assert_eq!(rt; table.push(7), Err(Full));
    assert_eq!(rt; table.as_slice(), [5, 6].as_slice());
}

#[test]
fn a_change_hands_out_the_row_that_was_there(rt: HostRuntime) {
    let mut table = Table::<u8, 2>::new(0);
    assert_eq!(rt; table.push(5), Ok(()));
    assert_eq!(rt; table.push(6), Ok(()));
    assert_eq!(rt; table.set(0, 8), Some(5));
    assert_eq!(rt; table.set(2, 9), None);
    assert_eq!(rt; table.remove(0), Some(8));
    assert_eq!(rt; table.remove(1), None);
    assert_eq!(rt; table.as_slice(), [6].as_slice());
}

#[test]
fn the_first_of_two_with_one_key(rt: HostRuntime) {
    let rows = [
        Row { key: 1, worth: 10 },
        Row { key: 2, worth: 20 },
        Row { key: 2, worth: 30 },
    ];
    assert_eq!(rt; first(&rows, 2), Some(1));
    assert_eq!(rt; first(&rows, 3), None);
}
