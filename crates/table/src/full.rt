// Why a row is not taken.

// The table has no room for another row.
#[derive(Clone, Copy, Debug, PartialEq, Drop)]
pub struct Full;
