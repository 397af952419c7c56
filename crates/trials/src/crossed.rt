use crossing::{RawAnswer, RawCall, RawEnd, RawOrder, RawPoint, RawRecord, cross_day};
use std::process::Abort;

// A buy, a sell of less, the random period and the auction in the numbers of C: what both have trades at 100, and the rest of the buy stands.
// What the slices hold before is what this day writes nowhere.
pub(crate) fn crossed_day(rt: &(impl Abort + AllocGlobal), table: u32) {
    let call = RawCall {
        kind: 0,
        side: 0,
        condition: 0,
        market: 0,
        member: 7,
        price: 100,
        quantity: 5,
        number: 0,
    };
    let calls = [
        call,
        RawCall {
            side: 1,
            quantity: 3,
            ..call
        },
        RawCall { kind: 2, ..call },
        RawCall { kind: 3, ..call },
    ];
    let mut answers = [RawAnswer {
        refusal: 9,
        answer: 9,
    }; 4];
    let mut tape = [RawRecord {
        kind: 0,
        first: 9,
        second: 9,
        price: 9,
        quantity: 9,
    }; 2];
    let mut scratch = [RawPoint {
        price: 9,
        demand: 9,
        supply: 9,
    }; 41];
    let mut standing = [RawOrder {
        number: 9,
        member: 9,
        side: 9,
        price: 9,
        left: 9,
    }; 2];
    let mut end = RawEnd {
        phase: 9,
        reference: 9,
        last: 9,
        used: 9,
        standing: 9,
    };
    let status = cross_day(
        rt.alloc(),
        table,
        0,
        1,
        100,
        20,
        10,
        0,
        8,
        &calls,
        &mut answers,
        &mut tape,
        &mut scratch,
        &mut standing,
        &mut end,
    );
    assert_eq!(rt; status, 0);
    assert_eq!(rt; answers[3].refusal, 0);
    assert_eq!(rt; answers[3].answer, 3);
    assert_eq!(rt; tape[0].price, 100);
    assert_eq!(rt; tape[0].quantity, 3);
    assert_eq!(rt; tape[1].price, 9);
    assert_eq!(rt; scratch[20].demand, 5);
    assert_eq!(rt; standing[0].left, 2);
    assert_eq!(rt; standing[1].left, 9);
    assert_eq!(rt; end.phase, 3);
    assert_eq!(rt; end.used, 1);
    assert_eq!(rt; end.standing, 1)
}
