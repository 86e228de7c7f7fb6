// Numbers of one, two and four bytes, big-endian, and flags, at an offset of a slice of bytes.
//
// A `get` is total: a byte past the end reads as zero. A store has nowhere to put such a byte: it
// would leave only a part of the number behind. So each `put` requires that its bytes lie inside
// the slice, and a caller that stores many values checks the length once.
#![tactic(auto)]

ghost use Rattle.std.specs.Prelude.{◌≡◌, ◌+◌, ◌*◌, ◌≤◌, length};
ghost use Rattle.std.proofs.lemmas.List.Edits.{sets};
ghost use Rattle.codec.specs.BigEndian.{be};
ghost use Rattle.codec.specs.Format.{num_at, flag};
ghost use Rattle.codec.specs.Examples.{Examples};

pub fn put_u8(out: &mut [u8], at: usize, v: u8)
    requires { at + 1 ≤ length out.old }
    ensures { out.new ≡ sets out.old at (be 1 v) }
{
    out[at] = v;
}

// A function for each width: no trait of the library has `to_be_bytes`, which a common one would ask for.
pub fn put_u16(out: &mut [u8], at: usize, v: u16)
    requires { at + 2 ≤ length out.old }
    ensures { out.new ≡ sets out.old at (be 2 v) }
{
    let [high, low] = v.to_be_bytes();
    out[at] = high;
    out[at + 1] = low;
}

pub fn put_u32(out: &mut [u8], at: usize, v: u32)
    requires { at + 4 ≤ length out.old }
    ensures { out.new ≡ sets out.old at (be 4 v) }
{
    // One by one, which compiles to one store; `copy_from_slice`, as compiled, compares addresses first.
    let [first, second, third, fourth] = v.to_be_bytes();
    out[at] = first;
    out[at + 1] = second;
    out[at + 2] = third;
    out[at + 3] = fourth;
}

pub fn put_flag(out: &mut [u8], at: usize, b: bool)
    requires { at + 1 ≤ length out.old }
    ensures { out.new ≡ sets out.old at (flag.enc b) }
{
    put_u8(out, at, u8::from(b));
}

pub fn get_u8(s: &[u8], at: usize) -> u8
    ensures { result ≡ num_at 1 s.now at }
{
    if at < s.len() { s[at] } else { 0 }
}

pub fn get_u16(s: &[u8], at: usize) -> u16
    ensures { result ≡ num_at 2 s.now at }
{
    // Below a length, `at + 1` does not wrap.
    if s.len() <= at {
        return 0;
    }
    u16::from_be_bytes([s[at], get_u8(s, at + 1)])
}

// A number that the end of the slice may cut off: a test for each byte.
fn cut_u32(s: &[u8], at: usize) -> u32
    ensures { result ≡ num_at 4 s.now at }
{
    // Below a length, `at + 3` does not wrap.
    if s.len() <= at {
        return 0;
    }
    u32::from_be_bytes([
        s[at],
        get_u8(s, at + 1),
        get_u8(s, at + 2),
        get_u8(s, at + 3),
    ])
}

// Four bytes that lie inside the slice, which it requires: with no test, they can be one load. A
// caller that reads many numbers checks the length once.
pub fn u32_at(s: &[u8], at: usize) -> u32
    requires { at + 4 ≤ length s.now }
    ensures { result ≡ num_at 4 s.now at }
{
    u32::from_be_bytes([s[at], s[at + 1], s[at + 2], s[at + 3]])
}

pub fn get_u32(s: &[u8], at: usize) -> u32
    ensures { result ≡ num_at 4 s.now at }
{
    if s.len() < 4 {
        return cut_u32(s, at);
    }
    if s.len() - 4 < at {
        return cut_u32(s, at);
    }
    u32_at(s, at)
}

pub fn get_flag(s: &[u8], at: usize) -> bool
    ensures value { result ≡ flag.dec s.now at }
    ensures examples { Examples }
{
    get_u8(s, at) == 1
}
