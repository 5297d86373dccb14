// What a line can say.

// Whether a product's contracts are futures or options.
#[derive(Clone, Copy, Debug, PartialEq, Drop)]
pub enum Kind {
    Futures,
    Options,
}

// What an option gives its holder; a future gives neither right. No `Option`: neither right has a letter of its own in a line.
#[derive(Clone, Copy, Debug, PartialEq, Drop)]
pub enum Right {
    Neither,
    Call,
    Put,
}

#[derive(Clone, Copy, Debug, PartialEq, Drop)]
pub enum Side {
    Buy,
    Sell,
}

// Whether an order opens lots or closes some.
#[derive(Clone, Copy, Debug, PartialEq, Drop)]
pub enum Effect {
    Opening,
    Closing,
}

// What the exchange publishes of a product and may announce anew.
#[derive(Clone, Copy, Debug, PartialEq, Drop)]
pub struct Terms {
    pub fee: u64,
    pub tax: u64,
    pub limit: u64,
    pub share: u64,
    pub ia: u64,
    pub ib: u64,
    pub ma: u64,
    pub mb: u64,
}

// What writes to an account; a name is a part of the line that was read. Every field of a line has a value, so none is an Option: a right, a
// strike or a spot that a kind has not is N or 0. Floor and ceiling are two plain numbers, as in a line.
#[derive(Clone, Copy, Drop)]
pub enum Entry<'a> {
    Product {
        name: &'a [u8],
        kind: Kind,
        tick: u64,
        terms: Terms,
        spot: u64,
    },
    Contract {
        name: &'a [u8],
        product: &'a [u8],
        right: Right,
        strike: u64,
        floor: u64,
        ceiling: u64,
        mark: u64,
    },
    Announce {
        name: &'a [u8],
        terms: Terms,
    },
    Band {
        contract: &'a [u8],
        floor: u64,
        ceiling: u64,
    },
    Spot {
        product: &'a [u8],
        price: u64,
    },
    Mark {
        contract: &'a [u8],
        price: u64,
    },
    Deposit {
        amount: u64,
    },
    Withdraw {
        amount: u64,
    },
    Cancel {
        order: u64,
    },
    Order {
        contract: &'a [u8],
        side: Side,
        effect: Effect,
        lots: u64,
        price: u64,
    },
    Fill {
        order: u64,
        lots: u64,
        price: u64,
    },
    Open,
    Close,
    Deadline,
}

// A line enters something or asks for the report. No `Option`: a question is not the lack of an entry.
#[derive(Clone, Copy, Drop)]
pub enum Request<'a> {
    Enter(Entry<'a>),
    Report,
}
