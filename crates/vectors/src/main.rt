// Worked cases of the leaves, run and printed: units, numbers in seven-bit groups, chip actions, and a KCS port by its methods.
//
// The file stdout beside src/ has what document 01 makes of each case; it is written from the
// document, with the reason for each line in docs/VECTORS.md.
#![tactic(auto)]

use leb128::ReadError;
use std::{fmt, io};
use units::{Blocks, Bytes};

fn main(rt: HostRuntime) -> io::Result<()> {
    for length in [0, 1, 4096, 4097, 8193, 4294967295, 17592186044416] {
        rounded(&rt, length)?;
    }
    for value in [0, 127, 128, 300, 16384, 4294967295] {
        written(&rt, value)?;
    }
    refused_write(&rt)?;
    let parts: [&[u8]; 7] = [
        b"\x7f",
        b"\xac\x02",
        b"\xff\xff\xff\xff\x0f",
        b"\xff\xff\xff\xff\x10",
        b"\x80\x00",
        b"\x80\x80",
        b"",
    ];
    for part in parts {
        read(&rt, part)?;
    }
    chip_actions(&rt)?;
    kcs_exchange(&rt)
}

// Bytes as numbers, each before a space.
#[derive(Clone, Copy)]
struct Row<'a>(&'a [u8]);

impl fmt::Display for Row<'_> {
    fn fmt<W: fmt::Write>(&self, f: &mut fmt::Formatter<W>) -> fmt::Result {
        for byte in self.0 {
            write!(f, "{byte} ")?;
        }
        Ok(())
    }
}

// A length in bytes, and the blocks that hold it.
fn rounded(rt: &impl Print, length: u64) -> io::Result<()> {
    println!(rt; "blocks {length} {} ", Bytes(length).blocks().0)
}

// The answer of a write, and the bytes after it.
fn written_line(
    rt: &impl Print,
    value: u32,
    answer: Option<usize>,
    after: &[u8],
) -> io::Result<()> {
    match answer {
        Some(next) => println!(rt; "write {value} {next} {}", Row(after)),
        None => println!(rt; "write {value} no room {}", Row(after)),
    }
}

// A number written at offset 1 of seven zeros: the answer, and the seven bytes.
fn written(rt: &impl Print, value: u32) -> io::Result<()> {
    let mut buffer = [0u8; 7];
    let answer = leb128::write_at(&mut buffer, 1, value);
    written_line(rt, value, answer, &buffer)
}

// 300 takes two bytes, and one is left.
fn refused_write(rt: &impl Print) -> io::Result<()> {
    let mut buffer = [0u8; 3];
    let answer = leb128::write_at(&mut buffer, 2, 300);
    written_line(rt, 300, answer, &buffer)
}

// The number at the front of some bytes, with the offset past it.
fn read(rt: &impl Print, part: &[u8]) -> io::Result<()> {
    print!(rt; "read {}", Row(part))?;
    match leb128::read_at(part, 0) {
        Ok(number) => println!(rt; "number {} {} ", number.value, number.next),
        Err(ReadError::Short) => println!(rt; "short "),
        Err(ReadError::Malformed) => println!(rt; "malformed "),
    }
}

// How many bytes of a part hold a value.
fn count(part: &[u8], value: u8) -> usize {
    let mut count = 0;
    // a sum, and no filter: that is a branch for each byte
    for byte in part {
        count += usize::from(*byte == value);
    }
    count
}

// Whether an action was done, and how many bytes are F0, 0F, FF and 00 after it.
fn shown(rt: &impl Print, done: bool, flash: &[u8]) -> io::Result<()> {
    let done = u8::from(done);
    let set = count(flash, 0xff);
    println!(rt;
        "chip {done} {} {} {set} {} ",
        count(flash, 0xf0),
        count(flash, 0x0f),
        count(flash, 0x00)
    )
}

// Two blocks of F0 under a window of 0F: a page without the erase, the erase, the page again, and
// what lies outside.
fn chip_actions(rt: &impl Print) -> io::Result<()> {
    let mut flash = [0xf0u8; 8192];
    let window = [0x0fu8; 8192];
    let plain = chip::program_page(&mut flash, &window, Blocks(1), 15);
    shown(rt, plain, &flash)?;
    let erase = chip::erase_block(&mut flash, Blocks(1));
    shown(rt, erase, &flash)?;
    let page = chip::program_page(&mut flash, &window, Blocks(1), 15);
    shown(rt, page, &flash)?;
    let past = chip::erase_block(&mut flash, Blocks(2));
    shown(rt, past, &flash)?;
    let seventeenth = chip::program_page(&mut flash, &window, Blocks(0), 16);
    shown(rt, seventeenth, &flash)
}

// What an access to a KCS port gave, and the status after it.
fn port_line(rt: &impl Print, given: u8, port: &kcs::Port) -> io::Result<()> {
    println!(rt; "kcs {given} {} ", port.read_status())
}

// A byte that the host writes: the length of the message that it completed, or 0.
fn data_line(rt: &impl Print, port: &mut kcs::Port, byte: u8) -> io::Result<()> {
    let length = port.write_data(byte).unwrap_or(0);
    port_line(rt, length, port)
}

// A message of two bytes, and its answer of two.
fn kcs_exchange(rt: &impl Print) -> io::Result<()> {
    let mut port = kcs::Port::new();
    port.write_command(0x61);
    port_line(rt, 0, &port)?;
    data_line(rt, &mut port, 0x18)?;
    port.write_command(0x62);
    port_line(rt, 0, &port)?;
    data_line(rt, &mut port, 0x01)?;
    let taken = port.respond(b"\x1c\x01");
    port_line(rt, u8::from(taken), &port)?;
    let first = port.read_data();
    port_line(rt, first, &port)?;
    data_line(rt, &mut port, 0x68)?;
    let second = port.read_data();
    port_line(rt, second, &port)?;
    data_line(rt, &mut port, 0x68)?;
    let dummy = port.read_data();
    port_line(rt, dummy, &port)
}
