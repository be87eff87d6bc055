// Whether a message is taken, and the registers that it is unpacked to.
ghost use Rattle.std.specs.Prelude.{◌≡◌, ◌&&◌, [], ◌∷◌, ◌++◌, ◌/◌, eqb, get_or};
ghost use Rattle.registers.specs.Registers.{padded};
ghost use Rattle.messages.specs.Parameters.{row_of};
ghost use Rattle.messages.specs.Messages.{hiomap_command_of, number_of, parameters_of, wrong_length, malformed, taken_as, opened};

use crate::lengths::request_bytes;
use crate::{Pair, Refusal};

// Takes a message or refuses it, by the board's pair and the agreed version, and unpacks it.
#[tactic(auto, using(crate::proofs::Passing::opened_taken))]
pub fn open_message(pair: Pair, version: u8, message: &[u8]) -> Result<[u8; 16], Refusal>
    ensures { result ≡ opened pair version message.now }
{
    check(pair, version, message)?;
    Ok(unpack(message))
}

// The first check that refuses a message, in Ticket 6's order, or that none does.
#[tactic(auto, unfolding(crate::specs::Messages::taken_as))]
fn check(pair: Pair, version: u8, message: &[u8]) -> Result<(), Refusal>
    ensures { result ≡ taken_as pair version message.now }
{
    if message.len() < 2 {
        return Err(Refusal::Short);
    }
    if !is_own(pair, message[0], message[1]) {
        return Err(Refusal::Foreign);
    }
    if is_malformed(version, message) {
        return Err(Refusal::Malformed);
    }
    Ok(())
}

// The network function stands above the two bits of the LUN, which is not looked at.
fn is_own(pair: Pair, first: u8, second: u8) -> bool
    ensures { result ≡ (eqb (first / 4) pair.netfn && eqb second pair.command) }
{
    first / 4 == pair.netfn && second == pair.command
}

// The message has no room for a hiomap command and its number, or not as many parameter bytes as the command has.
fn is_malformed(version: u8, message: &[u8]) -> bool
    ensures { result ≡ malformed version message.now }
{
    message.len() < 4 || is_wrong_length(message[2], version, message.len() - 4)
}

// A command that the version does not know has no wrong length.
fn is_wrong_length(code: u8, version: u8, count: usize) -> bool
    ensures { result ≡ wrong_length (row_of code version) count }
{
    request_bytes(code, version).is_some_and(|asked| count != asked as usize)
}

// The registers of a message, byte by byte: no request has a parameter whose two offsets differ.
#[tactic(auto, using(crate::proofs::Laying::copied))]
fn unpack(message: &[u8]) -> [u8; 16]
    ensures { result ≡ hiomap_command_of message.now ∷ number_of message.now
        ∷ (padded (parameters_of message.now) ++ (0 ∷ 0 ∷ 0 ∷ [])) }
{
    let mut registers = [0; 16];
    // place by place: a copy of the bytes that there are would call memcpy, which the archives do not ask of C
    for place in 0..13 {
        registers[place] = byte_at(message, place + 2);
    }
    registers
}

// A byte of a message, 0 past its end.
pub(crate) fn byte_at(message: &[u8], place: usize) -> u8
    ensures { result ≡ get_or message.now place 0 }
{
    message.get(place).copied().unwrap_or(0)
}
