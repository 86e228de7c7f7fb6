// The input: records of 21 bytes.
ghost use Rattle.std.specs.Prelude.{◌≡◌, ◌+◌, ◌≤◌, length};
ghost use Rattle.replay.specs.Input.{record_format};

use calls::Command;

// The command in the 21 bytes at an offset. Bytes past the end read as zero: whether a record is cut
// short is for the caller to see.
pub fn record_at(bytes: &[u8], at: usize) -> Command
    ensures { result ≡ record_format.dec bytes.now at }
{
    // Below a length, `at + 17` does not wrap.
    if bytes.len() <= at {
        return Command {
            kind: 0,
            n1: 0,
            n2: 0,
            n3: 0,
            n4: 0,
            n5: 0,
        };
    }
    let kind = codec::get_u8(bytes, at) as u32;
    Command {
        kind,
        n1: codec::get_u32(bytes, at + 1),
        n2: codec::get_u32(bytes, at + 5),
        n3: codec::get_u32(bytes, at + 9),
        n4: codec::get_u32(bytes, at + 13),
        n5: codec::get_u32(bytes, at + 17),
    }
}

// The same where the 21 bytes lie inside the slice, which it requires: with no test of each number. A
// run over a list has counted its whole records once.
pub(crate) fn whole_record_at(bytes: &[u8], at: usize) -> Command
    requires { at + record_format.width ≤ length bytes.now }
    ensures { result ≡ record_format.dec bytes.now at }
{
    let kind = bytes[at] as u32;
    Command {
        kind,
        n1: codec::u32_at(bytes, at + 1),
        n2: codec::u32_at(bytes, at + 5),
        n3: codec::u32_at(bytes, at + 9),
        n4: codec::u32_at(bytes, at + 13),
        n5: codec::u32_at(bytes, at + 17),
    }
}
