// The numbers of bytes that the table of parameters has for each command and version.
#![tactic(auto, unfolding(crate::specs::Parameters::row_of, crate::specs::Parameters::table))]

ghost use Rattle.std.specs.Prelude.{◌≡◌};
ghost use Rattle.messages.specs.Parameters.{row_of};
ghost use Rattle.messages.specs.Lengths.{asked, told};

// The bytes of a request's parameters; none where the version does not know the command.
pub(crate) fn request_bytes(code: u8, version: u8) -> Option<u8>
    ensures { result ≡ asked (row_of code version) }
{
    // numbers, and no enum: the published codes and versions, and any byte is answered; a struct of the two would be taken apart here
    match (version, code) {
        (0..=2, 1) => Some(0),
        (0..=2, 2) => Some(1),
        (1..=2, 3) => Some(0),
        (1, 4) => Some(2),
        (2, 4) => Some(4),
        (1, 5) => Some(0),
        (2, 5) => Some(1),
        (1, 6) => Some(2),
        (2, 6) => Some(4),
        (1, 7) => Some(6),
        (2, 7) => Some(4),
        (1, 8) => Some(6),
        (2, 8) => Some(0),
        (0..=2, 9) => Some(1),
        (2, 10) => Some(4),
        _ => None,
    }
}

// The bytes of a response's parameters.
pub(crate) fn response_bytes(code: u8, version: u8) -> u8
    ensures { result ≡ told (row_of code version) }
{
    match (version, code) {
        (1, 2) => 5,
        (2, 2) => 4,
        (1, 3) => 8,
        (2, 3) => 4,
        (1, 4 | 6) => 2,
        (2, 4 | 6) => 6,
        _ => 0,
    }
}
