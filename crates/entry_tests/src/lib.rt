// Lines as another crate reads them. The tests stand apart from the reader, so that it is not proved twice.
#![tactic(auto)]

#[cfg(test)]
mod tests {
    use entry::{Decline, Entry, Request, read_line};
    use std::test::Fail;

    #[test]
    fn a_name_is_a_part_of_the_line(rt: HostRuntime) -> Result<(), Fail> {
        let line = b"mark contract=TXB price=7650";
        match read_line(line) {
            Ok(Request::Enter(Entry::Mark { contract, price })) => {
                assert!(rt; contract == &line[14..17]);
                assert_eq!(rt; price, 7650);
                Ok(())
            }
            _ => Err("a mark is not read".into()),
        }
    }

    #[test]
    fn a_letter_inside_a_figure_is_declined_where_it_begins(rt: HostRuntime) -> Result<(), Fail> {
        match read_line(b"deposit amount=83O00") {
            Err(fault) => {
                assert_eq!(rt;
                    Decline::from(fault),
                    Decline {
                        number: 1,
                        layer: 1,
                        at: 16,
                        short: 0,
                    }
                );
                Ok(())
            },
            _ => Err("it is taken".into()),
        }
    }
}
