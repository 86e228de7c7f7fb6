// The berth tariff (document 02, A12): four prices applied to four imports, one a rate, and the rest
// carried from bill to bill.
#![tactic(auto)]

ghost use Rattle.std.specs.Prelude.{◌≡◌};
ghost use Rattle.tariff.specs.Refusals.{refusal_number};
ghost use Rattle.tariff.specs.Bills.{billed};
ghost use Rattle.tariff.specs.Laws.{Laws};
ghost use Rattle.tariff.specs.NearMisses.{NearMisses};

use energy::Energy;

mod charges;
mod limits;

#[derive(Clone, Copy)]
pub struct Charge {
    // Whole cents: the bill.
    pub cents: u64,
    // Parts of a cent, of which 3,600,000 make one: carried to the next bill.
    pub rest: u32,
}

// Why there is no bill.
#[derive(Clone, Copy, Debug, PartialEq, Eq)]
pub enum TariffRefusal {
    // A price above 1,000,000.
    PriceTooHigh = 28,
    // An incoming rest of 3,600,000 or more.
    RestTooLarge = 29,
    // An import of whole watt-hours above 2^31, or with a remainder of 3,600 or more.
    ImportOutOfRange = 30,
}

impl TariffRefusal {
    // The document's number.
    pub fn number(self) -> u8
        ensures { result ≡ refusal_number self }
    {
        self as u8
    }
}

// One bill, of imports at prices in cents per kilowatt-hour: 28 for a price above 1,000,000, 29 for an
// incoming rest of 3,600,000 or more, 30 if an import's whole watt-hours are above 2^31 or its remainder
// is 3,600 or more.
pub fn bill(rest: u32, prices: [u32; 4], imports: [Energy; 4]) -> Result<Charge, TariffRefusal>
    ensures value { result ≡ billed rest prices imports }
    ensures laws { Laws }
    ensures near_misses { NearMisses }
{
    if !limits::are_prices(prices) {
        return Err(TariffRefusal::PriceTooHigh);
    }
    if 3600000 <= rest {
        return Err(TariffRefusal::RestTooLarge);
    }
    if !limits::are_imports(imports) {
        return Err(TariffRefusal::ImportOutOfRange);
    }
    Ok(charges::charge(rest, prices, imports))
}
