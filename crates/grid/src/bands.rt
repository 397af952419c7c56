ghost use Rattle.std.specs.Prelude.{◌≡◌};
ghost use Rattle.model.specs.Grid.{within};

// Whether a price lies within a band of so many percent about a reference price, its ends included.
// The products are taken in 128 bits, which no three numbers of 32 bits exceed.
pub fn within(band: u32, reference: u32, price: u32) -> bool
    ensures { result ≡ within band reference price }
{
    let reference = reference as u128;
    let scaled = 100 * price as u128;
    reference * (100u128.saturating_sub(band as u128)) <= scaled
        && scaled <= reference * (100 + band as u128)
}
