// Reading numbers from the 16 registers.
ghost use Rattle.std.specs.Prelude.{◌≡◌};
ghost use Rattle.registers.specs.Registers.{number};

// Two 16-bit arguments.
#[derive(Clone, Copy)]
pub struct Words {
    pub first: u16,
    pub second: u16,
}

// The 16-bit numbers in arguments 0 and 1, and 2 and 3.
pub fn read_words(registers: [u8; 16]) -> Words
    ensures { (result.first ≡ number 2 0 registers) × (result.second ≡ number 2 2 registers) }
{
    let [_, _, a0, a1, a2, a3, ..] = registers;
    Words {
        first: u16::from_le_bytes([a0, a1]),
        second: u16::from_le_bytes([a2, a3]),
    }
}

// The 32-bit number in arguments 2 to 5: the length of version 1, in bytes.
pub fn read_length(registers: [u8; 16]) -> u32
    ensures { result ≡ number 4 2 registers }
{
    let [_, _, _, _, a2, a3, a4, a5, ..] = registers;
    u32::from_le_bytes([a2, a3, a4, a5])
}
