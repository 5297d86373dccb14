// Rows that are found by a key.
ghost use Rattle.std.specs.Prelude.{◌≡◌, Bool};
ghost use Rattle.std.specs.List.{position};

// A row that is found by a key of type K.
pub trait Keyed<K> {
    ghost keyed: { Self → K → Bool };

    // Whether the row's key equals this one.
    fn has_key(&self, key: K) -> bool
        ensures { result ≡ keyed self.now key };
}

// The place of the first row with an equal key, or None where there is none.
pub fn first<K: Copy, T: Keyed<K>>(rows: &[T], key: K) -> Option<usize>
    ensures { result ≡ position (λ row. T.keyed row key) rows.now }
{
    rows.iter().position(|row| row.has_key(key))
}
