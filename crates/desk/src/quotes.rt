ghost use Rattle.std.specs.Prelude.{◌≡◌};
ghost use Rattle.desk.specs.Quotes.{quote};

use session::CalledPrice;

// A price with its quantity, as members are shown it. The two fields of a token, and no token within: a quote has copies, and a token has none.
#[derive(Clone, Copy, Debug, PartialEq, Eq)]
pub struct Quote {
    pub price: u32,
    pub quantity: u64,
}

// What is shown of a called price.
impl From<&CalledPrice> for Quote {
    ghost from_gives = { λ called shown. shown ≡ quote called.now };

    fn from(called: &CalledPrice) -> Quote {
        Quote {
            price: called.price(),
            quantity: called.quantity(),
        }
    }
}
