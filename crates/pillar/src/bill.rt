// The berth tariff, for C (document 02, A12): the imports are eight numbers, watt-hours and watt-seconds
// for each of the four rates.
ghost use Rattle.std.specs.Prelude.{◌≡◌};
ghost use Rattle.tariff.specs.Bills.{billed};
ghost use Rattle.pillar.specs.Tariff.{imports_in, Billing, BillLaws};

use crate::day::energy_at;
use energy::Energy;
use tariff::{Charge, TariffRefusal};

fn imports_in(imports: &[u64; 8]) -> [Energy; 4]
    ensures { result ≡ imports_in imports.now }
{
    [
        energy_at(imports, 0),
        energy_at(imports, 2),
        energy_at(imports, 4),
        energy_at(imports, 6),
    ]
}

// Leaves the rest for the next bill and the cents of one that is not refused, and answers as C is answered.
fn settle(bill: Result<Charge, TariffRefusal>, rest: &mut u32, cents: &mut u64) -> u32
    ensures { Billing bill rest.old cents.old result rest.new cents.new }
{
    match bill {
        Err(refusal) => u32::from(refusal.number()),
        Ok(charge) => {
            *rest = charge.rest;
            *cents = charge.cents;
            0
        }
    }
}

// One bill: `rest` is the rest of the bill before, and becomes that of this one. 28, 29 and 30 as
// `tariff::bill`.
#[unsafe(no_mangle)]
pub extern "C" fn tariff_bill(
    prices: &[u32; 4],
    imports: &[u64; 8],
    rest: &mut u32,
    cents: &mut u64,
) -> u32
    ensures billing { Billing (billed rest.old prices.now (imports_in imports.now)) rest.old cents.old result rest.new cents.new }
    ensures laws { BillLaws }
{
    settle(
        tariff::bill(*rest, *prices, imports_in(imports)),
        rest,
        cents,
    )
}
