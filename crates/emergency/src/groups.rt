// The group ids: eight places, of which those below the count are held and the others are zero.
ghost use Rattle.std.specs.Prelude.{◌≡◌, take};
ghost use Rattle.emergency.specs.Emergency.{sound_ids, padded, listed_of};

// At most eight, and zeros past the count. No way out at the first place that fails, so that all eight
// are tested at once.
pub(crate) fn sound(count: u8, ids: [u16; 8]) -> bool
    ensures { result ≡ sound_ids count ids }
{
    let held = usize::from(count);
    let mut ok = held <= 8;
    for (i, id) in ids.iter().enumerate() {
        ok &= (i < held) | (*id == 0);
    }
    ok
}

// The first of the ids held that equals the one asked for.
pub(crate) fn find(count: u8, ids: [u16; 8], asked: u32) -> Option<u16>
    ensures { result ≡ listed_of (take count ids) asked }
{
    ids.iter()
        .take(usize::from(count))
        .find(|id| u32::from(**id) == asked)
        .copied()
}

// The ids that a count takes, and zeros behind them.
pub(crate) fn zeroed(count: u8, mut ids: [u16; 8]) -> [u16; 8]
    ensures { result ≡ padded (take count ids) }
{
    let held = usize::from(count.min(8));
    ids[held..].fill(0);
    ids
}
