// The alarm and the error register: 32 bits each, with the filter that hides bits from being set.
#![tactic(auto)]

ghost use Rattle.std.specs.Prelude.{◌≡◌};
ghost use Rattle.registers.specs.Register.{raised, cleared, with_filter};
ghost use Rattle.registers.specs.Laws.{Laws};

mod counted;

#[derive(Clone, Copy)]
pub struct Register {
    pub bits: u32,
    pub filter: u32,
}

// The alarm register with the count of its bits that stand.
#[derive(Clone, Copy)]
pub struct Alarms {
    pub register: Register,
    // 0 to 32.
    pub count: u8,
}

impl Register {
    // Sets the bits of the mask that the filter does not hide. The filter counts now, and never when
    // the register is read.
    pub fn raise(mut self, mask: u32) -> Register
        ensures value { result ≡ raised self mask }
        ensures laws { Laws }
    {
        self.bits = self.bits | (mask & !self.filter);
        self
    }

    // Clears the bits that are ones in the mask.
    pub fn clear(mut self, mask: u32) -> Register
        ensures { result ≡ cleared self mask }
    {
        self.bits = self.bits & !mask;
        self
    }

    // Takes a new filter. Bits that stand, stay.
    pub fn set_filter(mut self, filter: u32) -> Register
        ensures { result ≡ with_filter self filter }
    {
        self.filter = filter;
        self
    }
}
