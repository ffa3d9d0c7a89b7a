// A trade, its payments at two closes, and its bust, over a balance table.
#![tactic(auto)]

#[cfg(test)]
mod tests {
    use balances::table::BalanceTable;
    use faults::Refusal;
    use ledger::traits::BalanceReader;
    use positions::{Account, Trade, bust, enter};
    use prices::price::Price;
    use settlement::{Ending, settle_accounts};
    use table::{Keyed, Table};

    const NO_ACCOUNT: Keyed<Account> = Keyed {
        key: 0,
        value: Account {
            units: 0,
            units_at_close: 0,
            cost: 0,
        },
    };

    const NO_TRADE: Keyed<Trade> = Keyed {
        key: 0,
        value: Trade {
            buyer: 0,
            seller: 0,
            units: 0,
            price: 0,
        },
    };

    // From 102 to 101, at 1,000 points.
    fn trade_of(units: u32) -> Trade {
        Trade {
            buyer: 101,
            seller: 102,
            units,
            price: 10_000_000,
        }
    }

    // 250 units bought at 1,000 are paid 10,764.8500 at 1,043.0594, and lose 29,568.1250 from there to 924.7869.
    #[test]
    fn two_closes(rt: HostRuntime) {
        let mut places = [NO_ACCOUNT; 2];
        let mut accounts = Table::new(&mut places);
        let mut places = [NO_TRADE; 1];
        let mut trades = Table::new(&mut places);
        let mut ledger = BalanceTable::new(&[101, 102]);
        let base = Price { value: 10_000_000 };
        let first = Price { value: 10_430_594 };
        let second = Price { value: 9_247_869 };
        let entered = enter(&mut accounts, &mut trades, 1, trade_of(250));
        assert_eq!(rt; entered, Ok(()));
        let paid = settle_accounts(&mut accounts, &mut ledger, Ending::Close, base, Some(first));
        assert_eq!(rt; paid, Ok(()));
        assert_eq!(rt; ledger.balance_of(101), 107_648_500);
        assert_eq!(rt; ledger.balance_of(102), -107_648_500);
        let paid = settle_accounts(
            &mut accounts,
            &mut ledger,
            Ending::Close,
            first,
            Some(second),
        );
        assert_eq!(rt; paid, Ok(()));
        assert_eq!(rt; ledger.balance_of(101), -188_032_750);
        assert_eq!(rt; ledger.balance_of(102), 188_032_750);
        let unpriced = settle_accounts(
            &mut accounts,
            &mut ledger,
            Ending::Settlement,
            second,
            None,
        );
        assert_eq!(rt; unpriced, Err(Refusal::NotAdmitted.into()));
        assert_eq!(rt; ledger.balance_of(101), -188_032_750);
    }

    // Both sides of an account's limit, and a ticket that can be busted once.
    #[test]
    fn limit_and_bust(rt: HostRuntime) {
        let mut places = [NO_ACCOUNT; 2];
        let mut accounts = Table::new(&mut places);
        let mut places = [NO_TRADE; 2];
        let mut trades = Table::new(&mut places);
        let most = enter(&mut accounts, &mut trades, 1, trade_of(125_000));
        assert_eq!(rt; most, Ok(()));
        let one_more = enter(&mut accounts, &mut trades, 2, trade_of(1));
        assert_eq!(rt; one_more, Err(Refusal::AccountUnits.at(101)));
        assert_eq!(rt; bust(&mut accounts, &mut trades, 1), Ok(()));
        assert_eq!(rt;
            bust(&mut accounts, &mut trades, 1),
            Err(Refusal::NoSuchTrade.into())
        );
        assert_eq!(rt; trades.count(), 0);
        let held = accounts.find(101);
        assert_eq!(rt;
            held,
            Some(Keyed {
                key: 101,
                ..NO_ACCOUNT
            })
        );
    }
}
