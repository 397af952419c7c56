use crate::market::{Market, at, buy, expect, order, roomy, sell};
use choices::{Rule, Table};
use grid::Terms;
use model::{Call, Condition, OrderPrice, Side};
use samples::TERMS;
use std::process::Abort;
use std::test::Fail;

// An auction of two orders.
fn two(first: Call, second: Call) -> [Call; 4] {
    [first, second, Call::BeginRandom, Call::Auction]
}

// The called price by the two rules: outcomes 1 to 4.
pub(crate) fn called_prices(rt: &(impl Abort + AllocGlobal), table: Table) -> Result<(), Fail> {
    let nearest = roomy(table, Rule::Nearest);
    let middle = roomy(table, Rule::Balanced);
    let even = two(buy(at(106), 50), sell(at(98), 50));
    expect(
        rt,
        nearest,
        &even,
        "1 2 0 50 | 1+2=50@100 | at 100, 0 stand",
    )?;
    expect(rt, middle, &even, "1 2 0 50 | 1+2=50@102 | at 102, 0 stand")?;
    let odd = two(buy(at(103), 50), sell(at(98), 50));
    expect(rt, middle, &odd, "1 2 0 50 | 1+2=50@101 | at 101, 0 stand")?;
    let bid = two(buy(at(105), 80), sell(at(98), 50));
    expect(rt, nearest, &bid, "1 2 0 50 | 1+2=50@100 | at 100, 1 stand")?;
    expect(rt, middle, &bid, "1 2 0 50 | 1+2=50@105 | at 105, 1 stand")?;
    let offered = two(buy(at(105), 50), sell(at(98), 80));
    expect(
        rt,
        middle,
        &offered,
        "1 2 0 50 | 1+2=50@98 | at 98, 1 stand",
    )
}

// Market orders alone, of which the rest stands at the struck price and trades there; no price; rank: outcomes 5, 6 and 8.
pub(crate) fn other_auctions(rt: &(impl Abort + AllocGlobal), table: Table) -> Result<(), Fail> {
    let nearest = roomy(table, Rule::Nearest);
    let middle = roomy(table, Rule::Balanced);
    let markets = [
        buy(OrderPrice::Market, 30),
        sell(OrderPrice::Market, 20),
        Call::BeginRandom,
        Call::Auction,
        sell(at(90), 10),
    ];
    expect(
        rt,
        nearest,
        &markets,
        "1 2 0 20 3 | 1+2=20@100 1+3=10@100 | at 100, 0 stand",
    )?;
    expect(
        rt,
        middle,
        &markets,
        "1 2 0 20 3 | 1+2=20@120 1+3=10@120 | at 120, 0 stand",
    )?;
    let none = two(buy(at(121), 10), sell(at(90), 10));
    expect(rt, nearest, &none, "1 2 0 0 | | at 100, 2 stand")?;
    let several = [
        buy(at(102), 10),
        buy(OrderPrice::Market, 10),
        buy(at(103), 10),
        sell(at(100), 25),
        Call::BeginRandom,
        Call::Auction,
    ];
    expect(
        rt,
        nearest,
        &several,
        "1 2 3 4 0 25 | 2+4=10@100 3+4=10@100 1+4=5@100 | at 100, 1 stand",
    )
}

// Active at the ends of the grid and not beyond: outcome 7, each price with an order of the other side at market.
pub(crate) fn grid_ends(rt: &(impl Abort + AllocGlobal), table: Table) -> Result<(), Fail> {
    let market = roomy(table, Rule::Nearest).on(Terms {
        indicative: 95,
        absolute: 10,
        ..TERMS
    });
    expect(
        rt,
        market,
        &two(buy(at(86), 1), sell(OrderPrice::Market, 1)),
        "1 2 0 1 | 1+2=1@86 | at 86, 0 stand",
    )?;
    expect(
        rt,
        market,
        &two(buy(at(85), 1), sell(OrderPrice::Market, 1)),
        "1 2 0 0 | 2-1(2) | at 95, 1 stand",
    )?;
    expect(
        rt,
        market,
        &two(sell(at(104), 1), buy(OrderPrice::Market, 1)),
        "1 2 0 1 | 2+1=1@104 | at 104, 0 stand",
    )?;
    expect(
        rt,
        market,
        &two(sell(at(105), 1), buy(OrderPrice::Market, 1)),
        "1 2 0 0 | 2-1(2) | at 95, 1 stand",
    )
}

// An order in trading that meets the static band, plain and with a condition: outcome 9. An interruption lets no auction follow without a random period.
pub(crate) fn interruptions(rt: &(impl Abort + AllocGlobal), table: Table) -> Result<(), Fail> {
    let market = roomy(table, Rule::Nearest);
    let opening = [
        sell(at(109), 5),
        sell(at(111), 5),
        Call::BeginRandom,
        Call::Auction,
    ];
    let [first, second, random, auction] = opening;
    let plain = [first, second, random, auction, buy(at(112), 8), random];
    expect(
        rt,
        market,
        &plain,
        "1 2 0 0 3 0 | 3+1=5@109 | at 100, 2 stand",
    )?;
    let whole = order(Side::Buy, at(112), 8, Condition::FillOrKill);
    expect(
        rt,
        market,
        &[first, second, random, auction, whole, random],
        "1 2 0 0 3 !4 | 3-8(3) | at 100, 2 stand",
    )?;
    let part = order(Side::Buy, at(112), 8, Condition::ImmediateOrCancel);
    expect(
        rt,
        market,
        &[first, second, random, auction, part, random],
        "1 2 0 0 3 0 | 3+1=5@109 3-3(3) | at 100, 1 stand",
    )
}

// A market order in trading, what is left of it standing at its last price; a full book; making: outcomes 10 to 12.
pub(crate) fn trading_and_making(
    rt: &(impl Abort + AllocGlobal),
    table: Table,
) -> Result<(), Fail> {
    let market = roomy(table, Rule::Nearest);
    let rest = [
        Call::BeginRandom,
        Call::Auction,
        sell(at(101), 5),
        buy(OrderPrice::Market, 7),
        sell(at(90), 2),
    ];
    expect(
        rt,
        market,
        &rest,
        "0 0 1 2 3 | 2+1=5@101 2+3=2@101 | at 100, 0 stand",
    )?;
    let narrow = Market { rows: 1, ..market };
    let [random, auction, one, _, _] = rest;
    expect(
        rt,
        narrow,
        &[random, auction, one, buy(at(101), 8)],
        "0 0 1 2 | 2+1=5@101 | at 100, 1 stand",
    )?;
    expect(
        rt,
        narrow,
        &[random, auction, one, buy(at(100), 8)],
        "0 0 1 !10 | | at 100, 1 stand",
    )?;
    let fives = Terms { tick: 5, ..TERMS };
    expect(rt, market.on(fives), &[], "| | at 100, 0 stand")?;
    expect(
        rt,
        market.on(Terms {
            indicative: 0,
            ..fives
        }),
        &[],
        "!2",
    )?;
    expect(
        rt,
        market.on(Terms {
            indicative: 102,
            ..fives
        }),
        &[],
        "!2",
    )
}
