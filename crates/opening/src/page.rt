use chart::Chart;
use grid::Settings;
use model::{Order, OrderPrice, Point, Refusal, Side};
use preview::{Fault, opening_price};
use pricing::{BALANCED, MostTraded, Nearest};
use samples::{BY_BALANCED, BY_NEAREST};
use std::io;

// The settings, and how to read the bars of a curve.
pub(crate) fn show_settings(rt: &HostRuntime, settings: &Settings) -> io::Result<()> {
    let tick = settings.tick;
    let indicative = settings.indicative;
    let absolute = settings.absolute;
    let lowest = settings.lowest();
    let highest = settings.highest();
    println!(rt;
        "Tick {tick}, indicative price {indicative}, absolute band {absolute} percent: prices from {lowest} to {highest}."
    )?;
    println!(rt; "In a curve # trades and - is left over, a mark for every 5.")?;
    println!(rt)
}

// A book on a page: its orders, its curve, and its opening price under both rules.
// A page of its own beside that of `day`: there a session runs the orders as a list, here `preview` finds the price of a slice of them.
pub(crate) fn show(
    rt: &HostRuntime,
    title: &str,
    settings: &Settings,
    orders: &[Order],
) -> io::Result<()> {
    println!(rt; "{title}")?;
    for order in orders {
        show_order(rt, *order)?;
    }
    let mut scratch = vec![in rt.alloc(); Point::BLANK; settings.count()]?;
    let by_nearest = MostTraded { below: Nearest };
    let nearest = opening_price(&by_nearest, settings, orders, &mut scratch);
    let by_middle = MostTraded { below: BALANCED };
    let balanced = opening_price(&by_middle, settings, orders, &mut scratch);
    print!(rt;
        "{}",
        Chart {
            points: &scratch,
            indent: 2
        }
    )?;
    show_price(rt, BY_NEAREST, nearest)?;
    show_price(rt, BY_BALANCED, balanced)?;
    println!(rt)
}

// No `Display`: an order is a type of `model`, which both programs would then show alike, and `day` has other words for
// the side. A type of this program around it would serve this one line.
fn show_order(rt: &HostRuntime, order: Order) -> io::Result<()> {
    let number = order.number;
    let left = order.left;
    let side = match order.side {
        Side::Buy => "buy",
        Side::Sell => "sell",
    };
    match order.price {
        OrderPrice::Market => println!(rt; "  {number} {side:<4} {left:>4} at market"),
        OrderPrice::Limit(price) => println!(rt; "  {number} {side:<4} {left:>4} at {price}"),
    }
}

// Like the line of `day`, which has an answer and an end in place of a point: only the format is the same.
fn show_price(rt: &HostRuntime, rule: &str, price: Result<Option<Point>, Fault>) -> io::Result<()> {
    match price {
        Ok(Some(point)) => {
            let price = point.price;
            let quantity = point.traded();
            println!(rt; "  {rule:<32} {quantity} at {price}")
        }
        Ok(None) => println!(rt; "  {rule:<32} no price"),
        Err(fault) => println!(rt; "  {rule:<32} {fault}"),
    }
}

// Without the words that `day` shows beside the number, so each program has a line of its own.
pub(crate) fn show_refusal(rt: &HostRuntime, refusal: Refusal) -> io::Result<()> {
    let number = u8::from(refusal);
    println!(rt; "  refused: {number}")
}
