// The numbers of the cases, and rows that are found by a name.
use crate::{Call, Contract, Due, Name, Notice, Phase, Refusal};
use entry::Right;
use std::test::Fail;
use table::first;

#[test]
fn each_case_has_its_number(rt: HostRuntime) {
    let phases = [
        (Phase::Before, 0),
        (Phase::Regular, 1),
        (Phase::Settled, 2),
        (Phase::AfterHours, 3),
    ];
    for (phase, number) in &phases {
        assert_eq!(rt; u8::from(*phase), *number);
    }
    let calls = [(Call::NoCall, 0), (Call::Standing, 1), (Call::Overdue, 2)];
    for (call, number) in &calls {
        assert_eq!(rt; u8::from(*call), *number);
    }
    let notices = [
        (Notice::Quiet, 0),
        (Notice::HighRisk, 1),
        (Notice::CallStands, 2),
        (Notice::CallOverdue, 3),
    ];
    for (notice, number) in &notices {
        assert_eq!(rt; u8::from(*notice), *number);
    }
    let dues = [
        (Due::NotDue, 0),
        (Due::IndicatorLow, 1),
        (Due::CallMissed, 2),
    ];
    for (due, number) in &dues {
        assert_eq!(rt; u8::from(*due), *number);
    }
    let refusals = [
        (Refusal::WrongPhase, 3, 0),
        (Refusal::Unknown, 4, 0),
        (Refusal::InUse, 5, 0),
        (Refusal::OutOfRange, 6, 0),
        (Refusal::OutsideBand, 7, 0),
        (Refusal::TooManyLots, 8, 0),
        (Refusal::NoRoom, 9, 0),
        (Refusal::Short { dollars: 250 }, 10, 250),
        (Refusal::CallStands, 11, 0),
        (Refusal::SmallBuffer, 12, 0),
    ];
    for (refusal, number, short) in &refusals {
        assert_eq!(rt; u8::from(*refusal), *number);
        assert_eq!(rt; refusal.short(), *short);
    }
}

fn month(name: &[u8]) -> Result<Contract, Fail> {
    let Some(name) = Name::new(name) else {
        return Err("it is no name".into());
    };
    Ok(Contract {
        name,
        product: 0,
        right: Right::Neither,
        strike: 0,
        floor: 7_000,
        ceiling: 8_200,
        mark: 7_600,
    })
}

#[test]
fn a_name_finds_the_row_that_bears_it(rt: HostRuntime) -> Result<(), Fail> {
    let months = [month(b"TXB")?, month(b"TXBDEFGH")?];
    assert_eq!(rt; first(&months, b"TXBDEFGH"), Some(1));
    assert_eq!(rt; first(&months, b"TXBDEFG"), None);
    assert!(rt; Name::new(b"").is_none());
    assert!(rt; Name::new(b"TXBDEFGHI").is_none());
    assert!(rt; Name::new(b"TXb").is_none());
    Ok(())
}
