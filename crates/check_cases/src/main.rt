// Runs document 01's table, and both sides of each limit, through the service `check`. Each line shows a label, the answer, and
// the sixteen bytes lent, which were all AA before the call. What is printed is compared with the file stdout.
#![tactic(auto)]

use fixtures::{Bytes, EXAMPLE_W as W, EXAMPLE_W_CHARTER as WC, print_line};
use service::checking::check;
use std::io;
use std::io::Print;

fn show(rt: &impl Print, label: &str, sheet: &[u8], charter: &[u8]) -> io::Result<()> {
    let mut output = [0xAAu8; 16];
    let answer = check(sheet, charter, &mut output);
    print_line(rt, label.as_bytes(), answer, &output)
}

// The rows of the table that change W's charter.
fn charters(rt: &impl Print) -> io::Result<()> {
    show(rt, "W", &W, &WC)?;
    show(
        rt,
        "W's node 1 as 01 00 00",
        &W,
        b"\x01\x00\x00\x08\x02\x01\x00\x00\x02\x05\x00",
    )?;
    show(
        rt,
        "W's root with its first child only",
        &W,
        b"\x01\x00\x00\x08\x01\x01\x10\x01\x00\x01\x00\x00",
    )?;
    show(rt, "charter 00", &W, b"\x00")
}

// The rows that stop in the reading, and the empty sheet.
fn readings(rt: &impl Print) -> io::Result<()> {
    show(rt, "sheet 00 00, charter 00", b"\x00\x00", b"\x00")?;
    show(rt, "empty sheet", b"", &WC)?;
    show(rt, "00 00 00", b"\x00\x00\x00", &WC)?;
    show(
        rt,
        "00 02 00 04 00 00 00",
        b"\x00\x02\x00\x04\x00\x00\x00",
        &WC,
    )
}

// The rows that stop in the typing, and the one under a repeat.
fn typings(rt: &impl Print) -> io::Result<()> {
    let mut on_name_3 = W;
    on_name_3[15] = 3;
    show(rt, "W sending on name 3", &on_name_3, &WC)?;
    show(
        rt,
        "01 00 00 04 00 00 06 00 00 00",
        b"\x01\x00\x00\x04\x00\x00\x06\x00\x00\x00",
        &WC,
    )?;
    let mut on_name_1 = W;
    on_name_1[15] = 1;
    show(rt, "W sending on name 1", &on_name_1, &WC)?;
    let mut other_channel = W;
    other_channel[2] = 3;
    show(rt, "W with name 0 as 02 03 00 00", &other_channel, &WC)?;
    let mut repeated = Bytes::<32>::new();
    repeated.put(&W[..14]);
    repeated.put(b"\x07");
    repeated.put(&W[14..]);
    show(rt, "W with 07 before the send", repeated.as_slice(), &WC)
}

// Sheets and charters of zero bytes, as long as may be and longer.
fn lengths(rt: &impl Print) -> io::Result<()> {
    let zeros = [0u8; 4097];
    show(rt, "sheet of 4096 bytes", &zeros[..4096], b"\x00")?;
    show(rt, "sheet of 4097 bytes", &zeros, b"\x00")?;
    show(rt, "charter of 4096 bytes", b"\x00\x00", &zeros[..4096])?;
    show(rt, "charter of 4097 bytes", b"\x00\x00", &zeros)
}

// New names nested in one another, `count` of them, and nothing inside: count + 1 forms.
fn nested(rt: &impl Print, label: &str, count: usize) -> io::Result<()> {
    let mut sheet = Bytes::<512>::new();
    sheet.put(b"\x00");
    sheet.put_times(count, b"\x03\x00\x00");
    sheet.put(b"\x00");
    show(rt, label, sheet.as_slice(), b"\x00")
}

// That many components in parallel, with nothing in them.
fn components(rt: &impl Print, label: &str, count: usize) -> io::Result<()> {
    let mut sheet = Bytes::<512>::new();
    sheet.put(b"\x00");
    sheet.put_chain(count, b"\x04\x00\x00\x00");
    show(rt, label, sheet.as_slice(), b"\x00")
}

fn main(rt: HostRuntime) -> io::Result<()> {
    let rt = &rt;
    charters(rt)?;
    readings(rt)?;
    typings(rt)?;
    lengths(rt)?;
    nested(rt, "64 nested", 63)?;
    nested(rt, "65 nested", 64)?;
    show(rt, "purpose 15", b"\x00\x04\x00\x0F\x00", b"\x00")?;
    show(rt, "purpose 16", b"\x00\x04\x00\x10\x00", b"\x00")?;
    components(rt, "32 components", 32)?;
    components(rt, "33 components", 33)
}
