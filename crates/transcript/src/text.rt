// Lines and counts for printing.
ghost use Rattle.std.specs.Prelude.{◌≡◌, ◌%◌};
ghost use Rattle.transcript.specs.Text.{hex_digit, register_line, other_than_ff};

// The line of 16 registers.
pub(crate) fn register_line(registers: [u8; 16]) -> [u8; 48]
    ensures { result ≡ register_line registers }
{
    let mut line = [b' '; 48];
    for (i, byte) in registers.iter().enumerate() {
        line[3 * i] = hex_digit(byte / 16);
        line[3 * i + 1] = hex_digit(*byte);
    }
    line[47] = b'\n';
    line
}

// The character of the low hex digit. By hand, and no {:X}: each byte is in `run`'s contract.
fn hex_digit(byte: u8) -> u8
    ensures { result ≡ hex_digit (byte % 16) }
{
    let digit = byte % 16;
    if digit < 10 {
        digit + b'0'
    } else {
        digit - 10 + b'A'
    }
}

// How many bytes of a part are other than FF.
pub(crate) fn count_written(part: &[u8]) -> usize
    ensures { result ≡ other_than_ff part.now }
{
    let mut count = 0;
    // a sum, and no filter: that is a branch for each byte, three times as slow and more
    for byte in part {
        count += usize::from(*byte != 0xff);
    }
    count
}
