use crate::crossed::crossed_day;
use crate::outcomes::{
    called_prices, grid_ends, interruptions, other_auctions, trading_and_making,
};
use crate::refusals::{refused_calls, short_slices};
use crate::sessions::{foreign_prices, occupied_books};
use choices::Table;
use std::test::Fail;

#[test]
fn both_tables_give_the_known_outcomes(rt: HostRuntime) -> Result<(), Fail> {
    for table in [Table::Arrival, Table::Ranked] {
        called_prices(&rt, table)?;
        other_auctions(&rt, table)?;
        grid_ends(&rt, table)?;
        interruptions(&rt, table)?;
        trading_and_making(&rt, table)?;
        refused_calls(&rt, table)?;
        short_slices(&rt, table)?;
    }
    occupied_books(&rt);
    foreign_prices(&rt);
    Ok(())
}

#[test]
fn a_day_for_c_is_done_on_both_tables(rt: HostRuntime) {
    crossed_day(&rt, 0);
    crossed_day(&rt, 1)
}
