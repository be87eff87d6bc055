// The bench's run of a whole input: the text that it prints, byte for byte.
//
// Every input and every length of the text's buffer gets an answer.
#![tactic(auto)]

mod printing;
mod text;

ghost use Rattle.std.specs.Prelude.{◌≡◌, ◌≤◌, length};
ghost use Rattle.transcript.specs.Printing.{written};
ghost use Rattle.transcript.specs.Puts.{Puts};
ghost use Rattle.transcript.specs.Run.{bench, run_from, transcript};
ghost use Rattle.session.specs.Machine.{lent};
ghost use Rattle.session.specs.Record.{fresh};
ghost use Rattle.script.specs.Effects.{none_worn};

use printing::Printed;
use script::serve_at;
use session::{Board, new_session};

// The most bytes of input.
const MOST_INPUT: usize = 16384;

// Runs an input. Its text stands at the front of the buffer, as far as there is room, and its length is
// answered: a line of 48 bytes for each byte of input and the flash line at most.
pub fn run(input: &[u8], text: &mut [u8]) -> usize
    ensures length { result ≡ length (transcript input.now) }
    ensures text { text.new ≡ written 0 (transcript input.now) text.old }
    ensures bound { result ≤ 786522 }
{
    let mut printed = Printed::new(text);
    if MOST_INPUT < input.len() {
        printed.put(b"too long\n");
        return printed.end;
    }
    // four blocks and two: an array's length is no call, so the proof holds these to the conversion
    let mut flash = [0xffu8; 16384];
    let mut memory = [0xffu8; 8192];
    run_records(input, &mut flash, &mut memory, &mut printed);
    printed.put_flash(&flash);
    printed.end
}

// Runs the records, up to the first that breaks a rule, on a fresh session.
fn run_records(input: &[u8], flash: &mut [u8], memory: &mut [u8], printed: &mut Printed)
    requires input { length input.now ≤ 16384 }
    requires nothing { printed.old.end ≡ 0 }
    ensures puts { Puts printed.old (run_from (length input.now) bench input.now 0 (lent fresh flash.old none_worn memory.old)).text printed.new }
    ensures flash { flash.new ≡ (run_from (length input.now) bench input.now 0 (lent fresh flash.old none_worn memory.old)).flash }
    ensures bound { printed.new.end ≤ 786432 }
{
    let board = Board {
        lpc: 16,
        timeout: 8,
    };
    let mut session = new_session();
    let mut at = 0;
    // a while, since `at` moves by the length of a record, which reading it tells
    while at < input.len() {
        let Some(step) = serve_at(input, at, session, board, flash, memory) else {
            printed.put_bad(at);
            return;
        };
        printed.put_answer(step.served.answer);
        session = step.served.session;
        at = step.next;
    }
}
