// The charge of all rates, one after the other. It is reduced after each, as the sum of the four in
// parts of a cent would not fit 64 bits.
ghost use Rattle.std.specs.Prelude.{◌≡◌, true, ◌+◌, ◌≤◌, ◌<◌};
ghost use Rattle.tariff.specs.Charges.{with_rate, costs, charge_of};
ghost use Rattle.tariff.specs.Bills.{are_prices, are_imports};

use crate::Charge;
use energy::Energy;

// The charge with one rate more.
fn with_rate(charge: Charge, price: u32, import: Energy) -> Charge
    requires { ((charge.rest < 3600000) × (charge.cents ≤ 1000000000000000)) × ((price ≤ 1000000) × ((import.watthours ≤ 2147483648) × (import.wattseconds < 3600))) }
    ensures { (result ≡ with_rate charge price import) × (result.cents ≤ charge.cents + 2147483649000) }
{
    let amount = 3600 * import.watthours + import.wattseconds;
    let parts = u64::from(charge.rest) + u64::from(price) * amount;
    let cents = charge.cents + parts / 3600000;
    let rest = (parts % 3600000) as u32;
    Charge { cents, rest }
}

pub(crate) fn charge(rest: u32, prices: [u32; 4], imports: [Energy; 4]) -> Charge
    requires { (rest < 3600000) × ((are_prices prices ≡ true) × (are_imports imports ≡ true)) }
    ensures { result ≡ charge_of (rest + costs 4 prices imports) }
{
    let mut sum = Charge { cents: 0, rest };
    for (&price, &import) in prices.iter().zip(&imports) {
        sum = with_rate(sum, price, import);
    }
    sum
}
