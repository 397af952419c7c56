ghost use Rattle.std.specs.Prelude.{◌≡◌};
ghost use Rattle.model.specs.Rank.{opposite};

use crate::types::Side;

impl Side {
    // The other side.
    pub fn opposite(self) -> Side
        ensures { result ≡ opposite self }
    {
        match self {
            Side::Buy => Side::Sell,
            Side::Sell => Side::Buy,
        }
    }
}
