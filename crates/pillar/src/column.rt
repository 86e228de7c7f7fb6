// A column's limit shared out among its berths, for C (document 02, A10). `berths::allot` takes the
// berths where they lie.
ghost use Rattle.std.specs.Prelude.{◌≡◌};
ghost use Rattle.berths.specs.Allotments.{refusal, filled};

use berths::Berth;

// Fills the allotments of up to sixteen berths: 22, 23 and 24 as `berths::allot`, which reads none of
// them where they are more.
#[unsafe(no_mangle)]
pub extern "C" fn column_allot(limit: i32, berths: &mut [Berth]) -> u32
    ensures { (result ≡ refusal limit berths.old) × (berths.new ≡ filled limit berths.old) }
{
    u32::from(berths::allot(limit, berths).number())
}
