// What a price and an import may be.
ghost use Rattle.std.specs.Prelude.{◌≡◌};
ghost use Rattle.tariff.specs.Bills.{is_price, is_import, are_prices, are_imports};

use energy::Energy;

fn is_price(price: u32) -> bool
    ensures { result ≡ is_price price }
{
    price <= 1000000
}

fn is_import(import: Energy) -> bool
    ensures { result ≡ is_import import }
{
    (import.watthours <= 2147483648) & (import.wattseconds < 3600)
}

pub(crate) fn are_prices(prices: [u32; 4]) -> bool
    ensures { result ≡ are_prices prices }
{
    prices.iter().all(|&price| is_price(price))
}

pub(crate) fn are_imports(imports: [Energy; 4]) -> bool
    ensures { result ≡ are_imports imports }
{
    imports.iter().all(|&import| is_import(import))
}
