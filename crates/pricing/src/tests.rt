use crate::*;
use model::Point;
use std::array;
use std::test::Fail;

// A buy and a sell, each by its limit and its quantity, and the price under nearest and under middle. The last row has market orders, which allow every price.
const ROWS: [(u32, u64, u32, u64, u32, u32); 5] = [
    (106, 50, 98, 50, 100, 102),
    (103, 50, 98, 50, 100, 101),
    (105, 80, 98, 50, 100, 105),
    (105, 50, 98, 80, 100, 98),
    (120, 30, 80, 20, 100, 120),
];

// What is bid and offered at each price of the grid from 80 to 120.
fn points(buy_limit: u32, buy: u64, sell_limit: u32, sell: u64) -> [Point; 41] {
    array::from_fn(|i| {
        let price = 80 + i as u32;
        Point {
            price,
            demand: if price <= buy_limit { buy } else { 0 },
            supply: if sell_limit <= price { sell } else { 0 },
        }
    })
}

#[test]
fn rules_call_the_known_prices(rt: HostRuntime) -> Result<(), Fail> {
    let by_nearest = MostTraded { below: Nearest };
    let by_middle = MostTraded { below: BALANCED };
    for (buy_limit, buy, sell_limit, sell, nearest, middle) in ROWS {
        let points = points(buy_limit, buy, sell_limit, sell);
        assert_eq!(rt;
            called_price(&by_nearest, &points, 100).ok_or("none")?.price,
            nearest
        );
        assert_eq!(rt;
            called_price(&by_middle, &points, 100).ok_or("none")?.price,
            middle
        );
    }
    Ok(())
}
