use crate::market::{Market, at, buy, expect, order, roomy, sell};
use choices::{Rule, Table};
use grid::Terms;
use model::{Call, Condition, Entry, OrderPrice, Side};
use samples::TERMS;
use std::process::Abort;
use std::test::Fail;

// The refusals that a list or its making can meet, but for 3 and 13.
pub(crate) fn refused_calls(rt: &(impl Abort + AllocGlobal), table: Table) -> Result<(), Fail> {
    let market = roomy(table, Rule::Nearest);
    let no_tick = Terms { tick: 0, ..TERMS };
    expect(rt, market.on(no_tick), &[], "!1")?;
    let beyond = Terms {
        last_number: 1_000_000_000,
        ..TERMS
    };
    expect(rt, market.on(beyond), &[], "!1")?;
    let stranger = Call::Enter(Entry {
        member: 1000,
        side: Side::Buy,
        price: at(100),
        quantity: 1,
        condition: Condition::Plain,
    });
    let all = order(Side::Buy, at(100), 1, Condition::FillOrKill);
    let calls = [
        Call::Auction,
        stranger,
        buy(at(100), 0),
        buy(at(100_000), 1),
        all,
        Call::Withdraw {
            member: 7,
            number: 1,
        },
    ];
    expect(rt, market, &calls, "!4 !5 !6 !7 !8 !12 | | at 100, 0 stand")?;
    let spent = Terms {
        last_number: 999_999_999,
        ..TERMS
    };
    expect(
        rt,
        market.on(spent),
        &[buy(at(100), 1)],
        "!9 | | at 100, 0 stand",
    )?;
    let short = Market {
        answers: 1,
        ..market
    };
    expect(rt, short, &[Call::BeginRandom, Call::Auction], "!15")
}

// Too short a scratch, and too short a tape for a strike, a withdrawal and a close.
pub(crate) fn short_slices(rt: &(impl Abort + AllocGlobal), table: Table) -> Result<(), Fail> {
    let market = roomy(table, Rule::Nearest);
    let auction = [
        buy(OrderPrice::Market, 2),
        sell(at(100), 1),
        Call::BeginRandom,
        Call::Auction,
        Call::Close,
    ];
    expect(
        rt,
        Market {
            scratch: 40,
            ..market
        },
        &auction,
        "1 2 0 !14 2 | 1-2(5) 2-1(5) | at 100, 0 stand",
    )?;
    expect(
        rt,
        Market { tape: 0, ..market },
        &auction,
        "1 2 0 !11 !11 | | at 100, 2 stand",
    )?;
    expect(
        rt,
        Market { tape: 1, ..market },
        &auction,
        "1 2 0 1 !11 | 1+2=1@100 | at 100, 1 stand",
    )?;
    let leaving = [
        buy(at(90), 2),
        Call::Withdraw {
            member: 7,
            number: 1,
        },
    ];
    expect(
        rt,
        Market { tape: 0, ..market },
        &leaving,
        "1 !11 | | at 100, 1 stand",
    )?;
    expect(rt, market, &leaving, "1 2 | 1-2(1) | at 100, 0 stand")
}
