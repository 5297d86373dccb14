// A fixed table of rows.
ghost use Rattle.std.specs.Prelude.{◌≤◌};

use std::marker::Model;

// At most N rows, in the order in which they came. The places from len on hold no row.
// Its own array: memory is fixed, and a row has no default that could fill the places of an `ArrayVec`.
#[derive(Drop)]
pub struct Table<T, const N: usize> {
    pub(crate) rows: [T; N],
    pub(crate) len: usize,
    ghost few: { len ≤ N },
}

// A clause sees the rows as a list, and that there are at most N.
impl<T, const N: usize> Model for Table<T, N> {
    ghost use Rattle.std.specs.Prelude.{◌≡◌, length};
    ghost use Rattle.table.specs.Rows.{Rows, rows_code, first_rows};

    ghost Value = { Rows T N };

    ghost coded = { rows_code T.code };

    ghost view = { λ t. first_rows t.len t.rows t.few };

    ghost invariant = { λ t. length t.rows ≡ N };
}
