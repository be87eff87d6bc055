// The phases of a port and the status that 60 tells; C's record has a byte for each.
ghost use Rattle.std.specs.Prelude.{◌≡◌};
ghost use Rattle.kcs.specs.Port.{phase_of, state_bits};
ghost use Rattle.kcs.specs.Kinds.{phase_meant};

// What a port is at; the record has the place in this list, and any other number is the error phase.
#[derive(Clone, Copy, PartialEq, Eq)]
pub(crate) enum Phase {
    Idle,
    Writing,
    Ending,
    Awaiting,
    Reading,
    Aborting,
    Failed,
}

impl From<u8> for Phase {
    ghost from_gives = { λ number phase. phase_meant phase ≡ phase_of number };

    fn from(number: u8) -> Phase {
        match number {
            0 => Phase::Idle,
            1 => Phase::Writing,
            2 => Phase::Ending,
            3 => Phase::Awaiting,
            4 => Phase::Reading,
            5 => Phase::Aborting,
            _ => Phase::Failed,
        }
    }
}

impl Phase {
    // The state bits: idle 0, read 1, write 2, error 3.
    pub(crate) fn state_bits(self) -> u8
        ensures { result ≡ state_bits (phase_meant self) }
    {
        match self {
            Phase::Idle => 0,
            Phase::Awaiting | Phase::Reading => 1,
            Phase::Writing | Phase::Ending | Phase::Aborting => 2,
            Phase::Failed => 3,
        }
    }
}

// The status that 60 tells.
#[derive(Clone, Copy)]
pub(crate) enum Fault {
    NoError = 0x00,
    Aborted = 0x01,
    WrongCode = 0x02,
    TooLong = 0x06,
}
