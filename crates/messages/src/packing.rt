// The response to a message: a refusal of its own, or the answer of the mediator.
ghost use Rattle.std.specs.Prelude.{◌≡◌, ◌&&◌, ◌+◌, ◌*◌, ◌/◌, ◌%◌, eqb};
ghost use Rattle.registers.specs.Registers.{padded};
ghost use Rattle.messages.specs.Parameters.{row_of};
ghost use Rattle.messages.specs.Messages.{made_odd, headed, refusal_for, values_of, response_of, laid};

use crate::lengths::response_bytes;
use crate::taking::byte_at;
use crate::{Refusal, Response};

// The empty response, or three bytes with C1 or C7. A message that was taken has no refusal.
pub fn refuse(taken: Result<(), Refusal>, message: &[u8]) -> Response
    ensures { result ≡ laid (refusal_for taken message.now) }
{
    match taken {
        Ok(()) | Err(Refusal::Short) => Response {
            bytes: [0; 16],
            length: 0,
        },
        Err(Refusal::Foreign) => complete(message, 0xc1),
        Err(Refusal::Malformed) => complete(message, 0xc7),
    }
}

// The three bytes of a response that has a completion code alone, a byte of the standard.
fn complete(message: &[u8], completion: u8) -> Response
    ensures { result ≡ laid (headed message.now completion) }
{
    Response {
        bytes: head(message, completion),
        length: 3,
    }
}

// The first three bytes of a response, zero behind them.
fn head(message: &[u8], completion: u8) -> [u8; 16]
    ensures { result ≡ (laid (headed message.now completion)).bytes }
{
    let mut bytes = [0; 16];
    bytes[0] = reply_function(byte_at(message, 0));
    bytes[1] = byte_at(message, 1);
    bytes[2] = completion;
    bytes
}

// The network function made odd, with the LUN.
fn reply_function(first: u8) -> u8
    ensures { result ≡ made_odd (first / 4) * 4 + first % 4 }
{
    let function = first / 4;
    (function + (1 - function % 2)) * 4 + first % 4
}

// The response to a command, from the version and the registers after it.
#[tactic(auto, using(crate::proofs::Laying::laid_refused, crate::proofs::Laying::laid_served))]
pub fn pack(message: &[u8], version: u8, registers: [u8; 16]) -> Response
    ensures { result ≡ laid (response_of version message.now registers) }
{
    let status = registers[13];
    // a number, not u8::from(Code::Success): Code is of refusals, of which this crate has nothing
    if status != 1 {
        return complete(message, 0x80u8.wrapping_add(status));
    }
    let code = registers[0];
    let mut bytes = head(message, 0);
    bytes[3] = code;
    bytes[4] = registers[1];
    bytes[5..].copy_from_slice(&values_of(code, version, registers));
    Response {
        bytes,
        length: 5 + u32::from(response_bytes(code, version)),
    }
}

// The bytes of the response's parameters, zero behind them.
#[tactic(auto, using(crate::proofs::Laying::fronted, crate::proofs::Rows::info_packed))]
fn values_of(code: u8, version: u8, registers: [u8; 16]) -> [u8; 11]
    ensures { result ≡ padded (values_of (row_of code version) registers) }
{
    let mut values = [0; 11];
    if is_info_of_2(code, version) {
        values[..4].copy_from_slice(&[registers[2], registers[7], registers[8], registers[9]]);
        return values;
    }
    let count = usize::from(response_bytes(code, version));
    // place by place: a copy of `count` bytes would call memcpy, which the archives do not ask of C
    for place in 0..11 {
        values[place] = if place < count {
            registers[2 + place]
        } else {
            0
        };
    }
    values
}

// The one response with parameters whose two offsets differ: those of M 5 and M 6 are at I 1 and I 2.
fn is_info_of_2(code: u8, version: u8) -> bool
    ensures { result ≡ (eqb code 2 && eqb version 2) }
{
    code == 2 && version == 2
}
