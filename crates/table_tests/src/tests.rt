use super::*;

// An account that holds some units, at a cost.
fn account_at(number: u32, units: i64, cost: i64) -> Keyed<Account> {
    Keyed {
        key: number,
        value: Account {
            units,
            units_at_close: 0,
            cost,
        },
    }
}

fn account(number: u32, units: i64) -> Keyed<Account> {
    account_at(number, units, 0)
}

// A trade of accounts 101 and 102.
fn trade(ticket: u32, units: u32) -> Keyed<Trade> {
    Keyed {
        key: ticket,
        value: Trade {
            buyer: 101,
            seller: 102,
            units,
            price: 10_000_000,
        },
    }
}

// Whether the records have just these keys, in this order.
fn has_keys<V: Copy>(table: &Table<'_, V>, keys: &[u32]) -> bool {
    table
        .records()
        .iter()
        .map(|record| record.key)
        .eq(keys.iter().copied())
}

#[test]
fn no_places(rt: HostRuntime) {
    let mut places: [Keyed<Account>; 0] = [];
    let mut table = Table::new(&mut places);
    assert_eq!(rt; table.capacity(), 0);
    assert_eq!(rt; table.put(account(101, 5)), Err(Full));
    assert_eq!(rt; table.find(101), None);
    assert_eq!(rt; table.take(101), None);
    assert_eq!(rt; table.at(0), None);
}

#[test]
fn one_place(rt: HostRuntime) {
    let mut places = [trade(9, 9); 1];
    let mut table = Table::new(&mut places);
    assert_eq!(rt; table.put(trade(7, 250)), Ok(Stored::Added));
    assert_eq!(rt; table.put(trade(8, 300)), Err(Full));
    assert_eq!(rt; table.put(trade(7, 260)), Ok(Stored::Replaced));
    assert_eq!(rt; table.take(7), Some(trade(7, 260)));
    assert_eq!(rt; table.put(trade(8, 300)), Ok(Stored::Added));
    assert_eq!(rt; table.at(0), Some(trade(8, 300)));
}

#[test]
fn first_middle_and_last(rt: HostRuntime) {
    let mut places = [account(0, 0); 4];
    let mut table = Table::new(&mut places);
    for number in [20, 10, 40, 30] {
        assert_eq!(rt; table.put(account(number, 1)), Ok(Stored::Added));
    }
    assert_eq!(rt; table.put(account(25, 5)), Err(Full));
    for number in [10, 20, 40] {
        assert_eq!(rt; table.put(account(number, 2)), Ok(Stored::Replaced));
    }
    assert!(rt; has_keys(&table, &[10, 20, 30, 40]));
    assert_eq!(rt; table.find(30), Some(account(30, 1)));
    assert_eq!(rt; table.at(3), Some(account(40, 2)));
}

#[test]
fn taken_until_empty(rt: HostRuntime) {
    let mut places = [trade(0, 0); 5];
    let mut table = Table::new(&mut places);
    for ticket in 1..6 {
        assert_eq!(rt; table.put(trade(ticket, ticket)), Ok(Stored::Added));
    }
    for ticket in [3, 1, 5] {
        assert_eq!(rt; table.take(ticket), Some(trade(ticket, ticket)));
    }
    assert!(rt; has_keys(&table, &[2, 4]));
    assert_eq!(rt; table.take(3), None);
    for ticket in [4, 2] {
        assert_eq!(rt; table.take(ticket), Some(trade(ticket, ticket)));
    }
    assert_eq!(rt; table.count(), 0);
}

#[test]
fn values_set_in_place(rt: HostRuntime) {
    let mut places = [account(0, 0); 3];
    let mut table = Table::new(&mut places);
    assert_eq!(rt; table.put(account(102, -250)), Ok(Stored::Added));
    assert_eq!(rt; table.put(account(101, 250)), Ok(Stored::Added));
    assert!(rt; table.set_at(1, account(0, -300).value));
    assert!(rt; !table.set_at(2, account(0, 400).value));
    assert_eq!(rt; table.at(1), Some(account(102, -300)));
    assert_eq!(rt; table.find(101), Some(account(101, 250)));
}

#[test]
fn every_cost_set(rt: HostRuntime) {
    let mut places = [account(9, 9); 3];
    let mut table = Table::new(&mut places);
    assert_eq!(rt; table.put(account(102, -250)), Ok(Stored::Added));
    assert_eq!(rt; table.put(account(101, 250)), Ok(Stored::Added));
    set_costs(&mut table, 70);
    assert_eq!(rt; table.find(101), Some(account_at(101, 250, 70)));
    assert_eq!(rt; table.at(1), Some(account_at(102, -250, 70)));
    assert_eq!(rt; places[2], account(9, 9));
}

#[test]
fn memory_beyond_the_records(rt: HostRuntime) {
    let mut places = [account(9, 9); 4];
    let mut table = Table::new(&mut places[0..3]);
    assert_eq!(rt; table.put(account(2, 20)), Ok(Stored::Added));
    assert_eq!(rt; table.put(account(1, 10)), Ok(Stored::Added));
    assert_eq!(rt; table.take(1), Some(account(1, 10)));
    table.clear();
    assert_eq!(rt; table.count(), 0);
    assert_eq!(rt;
        places,
        [account(2, 20), account(2, 20), account(9, 9), account(9, 9)]
    );
}

#[test]
fn every_place_of_a_day(rt: HostRuntime) {
    let mut places = [trade(0, 0); 512];
    let mut table = Table::new(&mut places);
    for ticket in 1..513 {
        assert!(rt; table.has_place(ticket, 512));
        assert_eq!(rt; table.put(trade(ticket, 5)), Ok(Stored::Added));
        assert_eq!(rt; table.find(ticket), Some(trade(ticket, 5)));
    }
    assert!(rt; !table.has_place(513, 512));
}

#[test]
fn entering_checks_first(rt: HostRuntime) {
    let mut account_places = [account(0, 0); 3];
    let mut trade_places = [trade(0, 0); 2];
    let mut accounts = Table::new(&mut account_places);
    let mut trades = Table::new(&mut trade_places);
    assert_eq!(rt;
        enter(
            &mut accounts,
            &mut trades,
            3,
            account(102, 5),
            account(101, -5),
            trade(1, 5),
        ),
        Ok(())
    );
    let refused = enter(
        &mut accounts,
        &mut trades,
        3,
        account(104, 1),
        account(103, -1),
        trade(2, 1),
    );
    assert_eq!(rt; refused, Err(Refusal::NoAccountPlace.at(103)));
    assert!(rt; has_keys(&accounts, &[101, 102]));
    assert!(rt; has_keys(&trades, &[1]));
}
