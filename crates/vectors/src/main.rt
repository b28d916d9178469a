// Puts stored cases through the services, and prints for each, by its number, what the programs write: `list` and `run`, the listing's
// lines parted by semicolons and the log's bytes in hexadecimal; or `upgrade` or `downgrade`, the moved sheet's bytes in hexadecimal; or
// `stricter`, its answer. What is printed is compared with the file stdout, which the script `make` writes from the cases, as it does
// data/cases.bin. There a case begins with a byte: 0, of `list` and `run`, four two-byte lengths, low byte first, and the bytes of the
// sheet, the charter, the script and the names file; 1, of `upgrade`, and 2, of `downgrade`, one such length and the bytes of the sheet;
// 3, of `stricter`, two such lengths and the bytes of the new charter and of the one before it.
#![tactic(auto)]

use commands::{
    LOG_ROOM, MOVED_ROOM, NAMES_ROOM, SCRIPT_ROOM, SHEET_ROOM, print_compared, print_listing,
};
use execution::play;
use files::{first, read_full};
use moving::{downgrade, upgrade};
use reading::Question;
use std::fs::File;
use std::io;
use std::io::{Print, Read};

// The hexadecimal digits.
const DIGITS: [u8; 16] = *b"0123456789abcdef";

// Room for a log or a moved sheet in hexadecimal, three bytes each.
const TEXT_ROOM: usize = 3 * LOG_ROOM;

// The next lengths of the file, two bytes each, the low byte first; none where the file ends before.
fn read_lengths<const N: usize>(file: &mut impl Read) -> Option<[usize; N]> {
    let mut lengths = [0; N];
    for length in &mut lengths {
        let mut pair = [0u8; 2];
        if read_full(file, &mut pair) < 2 {
            return None;
        }
        *length = usize::from(u16::from_le_bytes(pair));
    }
    Some(lengths)
}

// The next `n` bytes of the file, as many as there are and fit the buffer.
fn next_bytes<'a>(file: &mut impl Read, buf: &'a mut [u8], n: usize) -> &'a [u8] {
    let n = n.min(buf.len());
    let count = read_full(file, &mut buf[..n]);
    &buf[..count]
}

// Prints the first `n` bytes of what a service wrote, in hexadecimal, a space before each, and a newline. The digits are put into a
// buffer: a `write!` for each byte takes three times as long.
fn print_bytes(rt: &impl Print, written: &[u8], n: usize) -> io::Result<()> {
    let bytes = first(written, n);
    let mut text = [b' '; TEXT_ROOM];
    for (shown, byte) in text.chunks_exact_mut(3).zip(bytes) {
        shown[1] = DIGITS[usize::from(byte / 16)];
        shown[2] = DIGITS[usize::from(byte % 16)];
    }
    rt.write_all(first(&text, bytes.len().saturating_mul(3)))?;
    rt.write_all(b"\n")
}

fn show_run(
    rt: &impl Print,
    number: u64,
    sheet: &[u8],
    charter: &[u8],
    script: &[u8],
) -> io::Result<()> {
    let mut log = [0u8; LOG_ROOM];
    print!(rt; "{number} run:")?;
    match play(sheet, charter, script, &mut log) {
        Ok(moves) => print_bytes(rt, &log, moves.saturating_mul(8)),
        Err(question) => println!(rt; " refused {question}"),
    }
}

// Reads a case of `list` and `run`, and shows it; whether its lengths stood in the file.
fn show_checked(rt: &impl Print, file: &mut impl Read, number: u64) -> io::Result<bool> {
    let Some(lengths) = read_lengths::<4>(file) else {
        return Ok(false);
    };
    let mut sheet = [0u8; SHEET_ROOM];
    let mut charter = [0u8; SHEET_ROOM];
    let mut script = [0u8; SCRIPT_ROOM];
    let mut names = [0u8; NAMES_ROOM];
    let sheet = next_bytes(file, &mut sheet, lengths[0]);
    let charter = next_bytes(file, &mut charter, lengths[1]);
    let script = next_bytes(file, &mut script, lengths[2]);
    let names = next_bytes(file, &mut names, lengths[3]);
    print!(rt; "{number} list: ")?;
    print_listing(rt, sheet, charter, names, b"; ")?;
    show_run(rt, number, sheet, charter, script)?;
    Ok(true)
}

// Reads a case of `upgrade` or of `downgrade`, and shows it; whether its length stood in the file.
fn show_moved<F: Fn(&[u8], &mut [u8]) -> Result<usize, Question>>(
    rt: &impl Print,
    file: &mut impl Read,
    number: u64,
    name: &str,
    service: F,
) -> io::Result<bool>
    requires { F.IsAlwaysCallable service }
{
    let Some(lengths) = read_lengths::<1>(file) else {
        return Ok(false);
    };
    let mut sheet = [0u8; SHEET_ROOM];
    let mut output = [0u8; MOVED_ROOM];
    let answer = service(next_bytes(file, &mut sheet, lengths[0]), &mut output);
    print!(rt; "{number} {name}:")?;
    match answer {
        Ok(n) => print_bytes(rt, &output, n)?,
        Err(question) => println!(rt; " refused {question}")?,
    }
    Ok(true)
}

// Reads a case of `stricter`, and shows it; whether its lengths stood in the file.
fn show_compared(rt: &impl Print, file: &mut impl Read, number: u64) -> io::Result<bool> {
    let Some(lengths) = read_lengths::<2>(file) else {
        return Ok(false);
    };
    let mut charter = [0u8; SHEET_ROOM];
    let mut before = [0u8; SHEET_ROOM];
    let charter = next_bytes(file, &mut charter, lengths[0]);
    let before = next_bytes(file, &mut before, lengths[1]);
    print!(rt; "{number} stricter: ")?;
    print_compared(rt, charter, before)?;
    Ok(true)
}

// Shows the next case of the file; whether there was one.
fn show_next(rt: &impl Print, file: &mut impl Read, number: u64) -> io::Result<bool> {
    let mut kind = [0u8; 1];
    if read_full(file, &mut kind) < 1 {
        return Ok(false);
    }
    match kind[0] {
        0 => show_checked(rt, file, number),
        1 => show_moved(rt, file, number, "upgrade", upgrade),
        3 => show_compared(rt, file, number),
        _ => show_moved(rt, file, number, "downgrade", downgrade),
    }
}

fn main(rt: HostRuntime) -> io::Result<()> {
    let rt = &rt;
    let Ok(mut file) = File::open(rt, "cases.bin") else {
        return Ok(());
    };
    // At most 65,535 cases.
    for number in 1..65536 {
        if !show_next(rt, &mut file, number)? {
            break;
        }
    }
    Ok(())
}
