// The response codes of a command, and the code of each check that refuses one.
ghost use Rattle.std.specs.Prelude.{◌≡◌};
ghost use Rattle.refusals.specs.Refusals.{code_number, code_for};

use crate::Reason;

// What a response says of its command, by the published names.
#[derive(Clone, Copy, PartialEq, Eq)]
pub enum Code {
    Success,
    ParamError,
    WriteError,
    SystemError,
    Timeout,
    Busy,
    WindowError,
    SeqError,
}

impl From<Code> for u8 {
    ghost from_gives = { λ code number. number ≡ code_number code };

    fn from(code: Code) -> u8 {
        match code {
            Code::Success => 1,
            Code::ParamError => 2,
            Code::WriteError => 3,
            Code::SystemError => 4,
            Code::Timeout => 5,
            Code::Busy => 6,
            Code::WindowError => 7,
            Code::SeqError => 8,
        }
    }
}

// The response code at the agreed version, of a command that no check refuses too, as docs/STATEMENTS.md has it.
pub fn code_for(version: u8, checked: Result<(), Reason>) -> Code
    ensures { code_number result ≡ code_for version checked }
{
    let early = version < 2;
    match checked {
        Ok(()) => Code::Success,
        Err(Reason::System) => Code::SystemError,
        Err(Reason::Repeated) => if early {
            Code::ParamError
        } else {
            Code::SeqError
        },
        Err(Reason::Unknown) => Code::ParamError,
        Err(Reason::Suspended) => if early { Code::Timeout } else { Code::Busy },
        Err(Reason::Windowless) => if early {
            Code::ParamError
        } else {
            Code::WindowError
        },
        Err(Reason::Argument) => Code::ParamError,
    }
}
