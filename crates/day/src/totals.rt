use crate::page::Page;
use book::Book;
use model::{Call, Refusal, TapeRecord};
use std::alloc::AllocError;

// What the tape shows of an order.
#[derive(Clone, Copy, Default)]
struct Shown {
    traded: u64,
    withdrawn: u64,
}

impl Shown {
    fn of(number: u64, tape: &[TapeRecord]) -> Shown {
        tape.iter().fold(
            Shown::default(),
            |shown, record| shown.with(number, *record),
        )
    }

    // And one record more.
    fn with(self, order: u64, record: TapeRecord) -> Shown {
        match record {
            TapeRecord::Trade {
                buy,
                sell,
                quantity,
                ..
            } if buy == order || sell == order => Shown {
                traded: self.traded.saturating_add(quantity),
                ..self
            },
            TapeRecord::Withdrawal {
                number,
                quantity,
                ..
            } if number == order => Shown {
                withdrawn: self.withdrawn.saturating_add(quantity),
                ..self
            },
            _ => self,
        }
    }
}

// Each accepted order: its quantity, and what was traded of it, withdrawn of it and stands of it.
pub(crate) fn show_totals<B: Book>(
    page: &mut Page,
    book: &B,
    calls: &[Call],
    outcomes: &[Result<u64, Refusal>],
    tape: &[TapeRecord],
) -> Result<(), AllocError> {
    writeln!(
        page.text,
        "   order  quantity =  traded + withdrawn + standing"
    )?;
    for (call, outcome) in calls.iter().zip(outcomes) {
        if let (Call::Enter(entry), Ok(number)) = (call, outcome) {
            show_total(page, book, *number, entry.quantity, tape)?;
        }
    }
    writeln!(page.text)
}

fn show_total<B: Book>(
    page: &mut Page,
    book: &B,
    number: u64,
    quantity: u64,
    tape: &[TapeRecord],
) -> Result<(), AllocError> {
    let Shown { traded, withdrawn } = Shown::of(number, tape);
    let standing = book.find(number).map_or(0, |order| order.left);
    let sum = traded
        .checked_add(withdrawn)
        .and_then(|gone| gone.checked_add(standing));
    let mark = if sum == Some(quantity) {
        ""
    } else {
        "  NOT KEPT"
    };
    writeln!(
        page.text,
        "  {number:>6}  {quantity:>8}  {traded:>8}  {withdrawn:>10}  {standing:>9}{mark}"
    )
}
