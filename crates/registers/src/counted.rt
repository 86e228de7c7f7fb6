// The alarm register with the count of its bits that stand, which the display shows. They are counted
// where they change, in an event and in a clear, so that the display finds the count ready.
ghost use Rattle.std.specs.Prelude.{◌≡◌};
ghost use Rattle.registers.specs.Alarms.{counting, alarms_raised, alarms_cleared, alarms_filtered, sound_alarms};
ghost use Rattle.registers.specs.Laws.{AlarmLaws};

use crate::{Alarms, Register};

impl Alarms {
    // This register, counted.
    fn counting(register: Register) -> Alarms
        ensures { result ≡ counting register }
    {
        Alarms {
            register,
            count: u32::count_ones(register.bits) as u8,
        }
    }

    // Whether the count is the register's.
    pub fn sound(self) -> bool
        ensures { result ≡ sound_alarms self }
    {
        self.count as u32 == u32::count_ones(self.register.bits)
    }

    // An event sets bits; one that stands already is counted once.
    pub fn raise(self, mask: u32) -> Alarms
        ensures value { result ≡ alarms_raised self mask }
        ensures laws { AlarmLaws }
    {
        Alarms::counting(self.register.raise(mask))
    }

    // Clears the bits that are ones in the mask.
    pub fn clear(self, mask: u32) -> Alarms
        ensures { result ≡ alarms_cleared self mask }
    {
        Alarms::counting(self.register.clear(mask))
    }

    // Takes a new filter. Bits that stand, stay, and with them their count.
    pub fn set_filter(mut self, filter: u32) -> Alarms
        ensures { result ≡ alarms_filtered self filter }
    {
        self.register = self.register.set_filter(filter);
        self
    }
}
