use crate::showing::shown_day;
use choices::{Rule, Table};
use grid::Terms;
use model::{Call, Condition, Entry, Order, OrderPrice, Side};
use samples::TERMS;
use std::process::Abort;
use std::test::Fail;

// What a session is made of, and the lengths of what it is lent.
#[derive(Clone, Copy)]
pub(crate) struct Market {
    pub(crate) table: Table,
    pub(crate) rule: Rule,
    pub(crate) terms: Terms,
    pub(crate) rows: usize,
    pub(crate) answers: usize,
    pub(crate) tape: usize,
    pub(crate) scratch: usize,
}

// A market with room for all.
pub(crate) fn roomy(table: Table, rule: Rule) -> Market {
    Market {
        table,
        rule,
        terms: TERMS,
        rows: 8,
        answers: 16,
        tape: 32,
        scratch: 41,
    }
}

impl Market {
    // The same market on other terms.
    pub(crate) fn on(self, terms: Terms) -> Market {
        Market { terms, ..self }
    }
}

// Orders of one member, at any price. Those of `day` take a member and a plain limit: words for both would be public functions of a library, each with a contract.
pub(crate) fn buy(price: OrderPrice, quantity: u64) -> Call {
    order(Side::Buy, price, quantity, Condition::Plain)
}

pub(crate) fn sell(price: OrderPrice, quantity: u64) -> Call {
    order(Side::Sell, price, quantity, Condition::Plain)
}

// An order of member 7.
pub(crate) fn order(side: Side, price: OrderPrice, quantity: u64, condition: Condition) -> Call {
    Call::Enter(Entry {
        member: 7,
        side,
        price,
        quantity,
        condition,
    })
}

pub(crate) fn at(limit: u32) -> OrderPrice {
    OrderPrice::Limit(limit)
}

// A day of this market comes to what is written here.
pub(crate) fn expect(
    rt: &(impl Abort + AllocGlobal),
    market: Market,
    calls: &[Call],
    outcome: &'static str,
) -> Result<(), Fail> {
    let heap = rt.alloc();
    // contents of its own, to see that what a book does not use makes no difference
    let blank = Order {
        number: 9,
        member: 9,
        side: Side::Sell,
        price: OrderPrice::Limit(9),
        left: 9,
    };
    let mut rows = vec![in heap; blank; market.rows]?;
    let book = market.table.empty(&mut rows);
    let shown = shown_day(heap, market, book, calls)?;
    assert!(rt; shown.as_str() == outcome, "{}", outcome);
    Ok(())
}
