use model::Point;
use std::fmt;

// A curve as a table, so many columns in, with a bar for what trades (#) and for what is left over (-), a mark for every 5.
// Neighbouring grid prices with the same demand and supply share a row.
// No `==` and no `Debug`: a chart is made to be shown, and not kept.
#[derive(Clone, Copy)]
pub struct Chart<'a> {
    pub points: &'a [Point],
    pub indent: usize,
}

impl fmt::Display for Chart<'_> {
    fn fmt<W: fmt::Write>(&self, f: &mut fmt::Formatter<W>) -> fmt::Result {
        let indent = self.indent;
        writeln!(f, "{:indent$}   prices  demand  supply  traded", "")?;
        let rows = self
            .points
            // the points differ in price
            .chunk_by(|a, b| { a.demand == b.demand && a.supply == b.supply });
        for row in rows {
            let from = row[0].price;
            let last = row[row.len() - 1];
            let to = last.price;
            let demand = last.demand;
            let supply = last.supply;
            let traded = last.traded();
            let shared = marks(traded);
            let over = marks(last.surplus());
            writeln!(
                f,
                "{:indent$}{from:>4} - {to:>3} {demand:>7} {supply:>7} {traded:>7}  {:#<shared$}{:-<over$}",
                "", "", ""
            )?;
        }
        Ok(())
    }
}

// A mark for every 5, and at most 40.
fn marks(quantity: u64) -> usize {
    (quantity / 5).min(40) as usize
}
