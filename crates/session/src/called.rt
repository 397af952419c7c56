ghost use Rattle.std.specs.Prelude.{◌≡◌};

// A called price with its quantity. It comes from a call alone and has no copy.
// A strike or a put-back spends it: its quantity is then 0, and only then may it be let go.
// Price and quantity are its own fields, as the phase has them: a struct of both within would be one step more in each contract.
// That it is live is a clause of strike and put-back, and no fact of the type: a spent one is still there until it is let go.
// That its price stays is said of each of them: no type can hold a fact of a token before and after.
pub struct CalledPrice {
    pub(crate) price: u32,
    pub(crate) quantity: u64,
}

impl Drop for CalledPrice {
    fn drop(self)
        requires { self.quantity ≡ 0 }
    {
        let CalledPrice {
            price: _,
            quantity: _,
        } = self;
    }
}

impl CalledPrice {
    // The price at which the strike trades.
    pub fn price(&self) -> u32
        ensures { result ≡ self.now.price }
    {
        self.price
    }

    // How much trades at it, 0 once it is spent. No Option: nothing that is called has a quantity of 0, and the token is plain numbers.
    pub fn quantity(&self) -> u64
        ensures { result ≡ self.now.quantity }
    {
        self.quantity
    }

    // It is spent: nothing of it is left to trade.
    pub(crate) fn spend(&mut self)
        ensures quantity { self.new.quantity ≡ 0 }
        ensures price { self.new.price ≡ self.old.price }
    {
        self.quantity = 0;
    }
}
