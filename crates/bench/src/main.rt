// The bench program: reads an input, runs it, and prints its text.
#![tactic(auto)]

ghost use Rattle.std.specs.Prelude.{◌≡◌, ◌≤◌, length};

use std::io::{self, Read, Stdin};
use transcript::run;

fn main(rt: HostRuntime) -> io::Result<()> {
    // room for one byte more than is allowed shows that there are more
    let mut input = [0u8; 16385];
    let size = read_full(rt.stdin(), &mut input);
    let mut text = room();
    let length = run(&input[..size], &mut text);
    rt.write_all(&text[..length])
}

// Reads until the buffer is full, the input ends or a read fails, and answers how many bytes it put at
// the buffer's front.
fn read_full(mut stdin: Stdin, buffer: &mut [u8]) -> usize
    ensures { result ≤ length buffer.new }
{
    let mut size = 0;
    // a while, since a read tells how far it moves; read_to_end needs a heap, and says no size after an error
    while size < buffer.len() {
        let count = stdin.read(&mut buffer[size..]).unwrap_or(0);
        if count == 0 {
            return size;
        }
        size += count;
    }
    size
}

// Room for every text.
fn room() -> [u8; 786522]
    ensures { 786522 ≡ length result }
{
    [0u8; 786522]
}
