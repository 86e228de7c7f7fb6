// The input: records of 33 bytes.
ghost use Rattle.std.specs.Prelude.{◌≡◌, ◌+◌, ◌≤◌, length};
ghost use Rattle.phases_replay.specs.Input.{three_phase_record_format};

use phases::ThreePhaseCommand;

// The command in the 33 bytes at an offset, which lie inside the slice: its callers have counted the
// whole records, so that no number is tested for itself.
pub(crate) fn whole_record_at(bytes: &[u8], at: usize) -> ThreePhaseCommand
    requires { at + three_phase_record_format.width ≤ length bytes.now }
    ensures { result ≡ three_phase_record_format.dec bytes.now at }
{
    let kind = bytes[at] as u32;
    ThreePhaseCommand {
        kind,
        n1: codec::u32_at(bytes, at + 1),
        n2: codec::u32_at(bytes, at + 5),
        n3: codec::u32_at(bytes, at + 9),
        n4: codec::u32_at(bytes, at + 13),
        n5: codec::u32_at(bytes, at + 17),
        n6: codec::u32_at(bytes, at + 21),
        n7: codec::u32_at(bytes, at + 25),
        n8: codec::u32_at(bytes, at + 29),
    }
}
