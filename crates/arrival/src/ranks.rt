ghost use Rattle.std.specs.Prelude.{◌≡◌, filter};
ghost use Rattle.model.specs.Numbers.{max_number};
ghost use Rattle.model.specs.Orders.{Standing};
ghost use Rattle.model.specs.Rank.{ranked};
ghost use Rattle.book.specs.Meaning.{first, place};
ghost use Rattle.arrival.specs.Scans.{behind};

use model::{Order, Side};
use rows::comes_before;

// The n-th order of a side in rank, counted from 1: n scans.
// Out of line, so that `nth` of a book that may be either table can be in line: that of the ranked table is short.
#[inline(never)]
pub(crate) fn nth_in_rank(orders: &[Order], side: Side, n: usize) -> Option<Order>
    requires { Standing 0 orders.now max_number }
    ensures { result ≡ place n (ranked side orders.now) }
{
    // past all orders there is none, known without a scan
    if n > orders.len() {
        return None;
    }
    let mut at = None;
    // a loop, and no `try_fold`: that wraps the order of each step in a second option, and takes it off again at the end
    for _ in 0..n {
        at = Some(first_behind(orders, side, at)?);
    }
    at
}

// The first in rank of the side behind another order, or of all where there is none.
fn first_behind(orders: &[Order], side: Side, from: Option<Order>) -> Option<Order>
    requires { Standing 0 orders.now max_number }
    ensures { result ≡ first (ranked side (filter (behind side from) orders.now)) }
{
    orders
        .iter()
        .copied()
        .filter(|o| side == o.side && from.is_none_or(|x| comes_before(side, x, *o)))
        .reduce(|best, o| if comes_before(side, o, best) { o } else { best })
}
