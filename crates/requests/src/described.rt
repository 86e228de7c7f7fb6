// The reading of a descriptor.
ghost use Rattle.std.specs.Prelude.{◌≡◌, ◌≤◌, length};
ghost use Rattle.requests.specs.Requests.{descriptor_in};

use crate::Descriptor;

// The descriptor of a request that has at least its head.
pub(crate) fn descriptor_in(s: &[u8]) -> Descriptor
    requires { 13 ≤ length s.now }
    ensures { result ≡ descriptor_in s.now }
{
    let class = codec::get_u16(s, 3);
    // A name of six bytes, by its first two and its last four.
    let high = u64::from(codec::get_u16(s, 5));
    let low = u64::from(codec::u32_at(s, 7));
    let name = high * 4294967296 + low;
    let id = s[11];
    Descriptor { class, name, id }
}
