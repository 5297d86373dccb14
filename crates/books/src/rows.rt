// The rows of an account's tables.
// A row refers to another by its place: memory is fixed, and rows are plain values. No row that is referred to ever moves.
ghost use Rattle.books.specs.Books.{numbered};
ghost use Rattle.books.specs.Names.{is_same_name};

use crate::name::Name;
use entry::{Effect, Kind, Right, Side, Terms};
use table::Keyed;

// What is listed under one name and margined together. A tick is worth so many dollars a lot. Futures have spot 0, and no Option: it is
// kept as a line writes it, and another value there is a decline of its own.
#[derive(Clone, Copy, Drop)]
pub struct Product {
    pub name: Name,
    pub kind: Kind,
    pub tick: u32,
    pub terms: Terms,
    pub spot: u32,
}

// A month of futures or a series of options. Prices are in ticks. Of a month the right is Neither and the strike 0, and no Option: they are kept
// as a line writes them, and another value there is a decline of its own. Floor and ceiling are two plain numbers: a struct would only add a name.
#[derive(Clone, Copy, Drop)]
pub struct Contract {
    pub name: Name,
    pub product: usize,
    pub right: Right,
    pub strike: u32,
    pub floor: u32,
    pub ceiling: u32,
    pub mark: u32,
}

// So many lots of one kind: a standing order's, or a line's.
#[derive(Clone, Copy, Drop)]
pub struct Lots<T> {
    pub of: T,
    pub count: u32,
}

// What a standing order asks for.
#[derive(Clone, Copy, Drop)]
pub struct Order {
    pub number: u32,
    pub contract: usize,
    pub side: Side,
    pub effect: Effect,
    pub limit: u32,
}

// What the lots of a line are: bought or sold at the entry price, and settled last at the base price.
#[derive(Clone, Copy, Drop)]
pub struct Position {
    pub contract: usize,
    pub side: Side,
    pub entry: u32,
    pub base: u32,
}

// A product is found by the bytes of its name.
impl<'a> Keyed<&'a [u8]> for Product {
    ghost keyed = { λ row name. is_same_name name.now row.name };

    fn has_key(&self, product: &'a [u8]) -> bool {
        self.name.is(product)
    }
}

// So is a contract. One impl for every row with a name is refused: the trait is another crate's.
impl<'a> Keyed<&'a [u8]> for Contract {
    ghost keyed = { λ row name. is_same_name name.now row.name };

    fn has_key(&self, contract: &'a [u8]) -> bool {
        self.name.is(contract)
    }
}

// A standing order is found by its number.
impl Keyed<u64> for Lots<Order> {
    ghost keyed = { λ row number. numbered number row.of };

    fn has_key(&self, number: u64) -> bool {
        self.of.number as u64 == number
    }
}
