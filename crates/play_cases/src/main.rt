// Runs document 01's scripts, and both sides of each limit of a run, through the service `play`. Each line shows a label, the
// answer, and the log lent, which was all AA before the call. What is printed is compared with the file stdout.
#![tactic(auto)]

use execution::play;
use fixtures::{Bytes, EXAMPLE_W, EXAMPLE_W_CHARTER, Hex, Shown, print_line};
use std::io;
use std::io::Print;

// A sheet and its charter.
#[derive(Clone, Copy)]
struct System<'a> {
    sheet: &'a [u8],
    charter: &'a [u8],
}

impl System<'_> {
    // Plays with a log.
    fn show_in(
        self,
        rt: &impl Print,
        label: &str,
        script: &[u8],
        log: &mut [u8],
    ) -> io::Result<()> {
        let answer = play(self.sheet, self.charter, script, log);
        print_line(rt, label.as_bytes(), answer, log)
    }

    // Plays with a log of four records.
    fn show(self, rt: &impl Print, label: &str, script: &[u8]) -> io::Result<()> {
        let mut log = [0xAAu8; 32];
        self.show_in(rt, label, script, &mut log)
    }
}

// Document 01's script on W, with a log of each length, and other scripts on W.
fn scripts(rt: &impl Print) -> io::Result<()> {
    let w = System {
        sheet: &EXAMPLE_W,
        charter: &EXAMPLE_W_CHARTER,
    };
    let script = b"\x04\x00\x01\x05\x00\x00\x03\x00\x02\x00";
    let mut short = [0xAAu8; 23];
    let mut exact = [0xAAu8; 24];
    w.show(rt, "W, 04 00 01 05 00 00 03 00 02 00", script)?;
    w.show_in(rt, "the same, a log of 24 bytes", script, &mut exact)?;
    w.show_in(rt, "the same, a log of 23 bytes", script, &mut short)?;
    w.show_in(rt, "W, script 06, no log", b"\x06", &mut [])?;
    w.show_in(rt, "W, no script, no log", b"", &mut [])?;
    w.show(rt, "W, 03 01 00 00", b"\x03\x01\x00\x00")?;
    w.show(rt, "W, no script", b"")?;
    w.show(rt, "W, 06", b"\x06")?;
    w.show(rt, "W, 04 00 01 03 00 00", b"\x04\x00\x01\x03\x00\x00")?;
    w.show(rt, "W, 05 05", b"\x05\x05")?;
    w.show(rt, "W, 05 01 40 00", b"\x05\x01\x40\x00")?;
    w.show(rt, "W, 05 00 10", b"\x05\x00\x10")?;
    w.show(rt, "W, 03 01 FF FF 01 FF", b"\x03\x01\xFF\xFF\x01\xFF")
}

// A sheet that its charter refuses: W, with its charter's node 1 as 01 00 00.
fn refused(rt: &impl Print) -> io::Result<()> {
    let system = System {
        sheet: &EXAMPLE_W,
        charter: b"\x01\x00\x00\x08\x02\x01\x00\x00\x02\x05\x00",
    };
    system.show(rt, "W's node 1 as 01 00 00", b"\x04\x00\x01")
}

// A component of `rows * columns` repeats in parallel, under the charter 00.
fn repeats(
    rt: &impl Print,
    label: &str,
    rows: usize,
    columns: usize,
    form: &[u8],
    script: &[u8],
) -> io::Result<()> {
    let mut sheet = Bytes::<512>::new();
    sheet.put(b"\x00\x04\x00\x00");
    sheet.put_grid(rows, columns, form);
    let system = System {
        sheet: sheet.as_slice(),
        charter: b"\x00",
    };
    system.show(rt, label, script)
}

// Question 20 of threads, and 35 of unfoldings. One of 07 00 makes no thread, one of 07 07 00 makes one.
fn unfoldings(rt: &impl Print) -> io::Result<()> {
    repeats(
        rt,
        "64 threads 07 00, 01 00 01 3F 01 40",
        8,
        8,
        b"\x07\x00",
        b"\x01\x00\x01\x3F\x01\x40",
    )?;
    repeats(
        rt,
        "65 threads 07 00, 01 00",
        5,
        13,
        b"\x07\x00",
        b"\x01\x00",
    )?;
    repeats(rt, "65 threads 07 00, FF", 5, 13, b"\x07\x00", b"\xFF")?;
    repeats(
        rt,
        "64 threads 07 07 00, 01 00 01 3F 01 40",
        8,
        8,
        b"\x07\x07\x00",
        b"\x01\x00\x01\x3F\x01\x40",
    )?;
    repeats(
        rt,
        "63 threads 07 07 00, 01 00 01 01 01 00",
        7,
        9,
        b"\x07\x07\x00",
        b"\x01\x00\x01\x01\x01\x00",
    )
}

// A component of 62 repeats and two further threads, 3E and 3F, in parallel, with a channel 0 and a name 1 that it carries; its
// charter grants all.
fn acts(
    rt: &impl Print,
    label: &str,
    sender: &[u8],
    other: &[u8],
    script: &[u8],
) -> io::Result<()> {
    let mut sheet = Bytes::<512>::new();
    sheet.put(b"\x02\x01\x00\x00\x00\x00\x04\x00\x00\x01");
    sheet.put_grid(2, 31, b"\x07\x00");
    sheet.put(b"\x01");
    sheet.put(sender);
    sheet.put(other);
    let system = System {
        sheet: sheet.as_slice(),
        charter: b"\x01\x00\x00\x17\x01\x00\xFF\xFF\x00",
    };
    system.show(rt, label, script)
}

// 35 of communications, sends and receives: what goes makes room for what comes.
fn communications(rt: &impl Print) -> io::Result<()> {
    acts(
        rt,
        "64 threads, a communication that makes two, 04 3E 3F 01 3F 01 40",
        b"\x06\x00\x01\x00",
        b"\x05\x00\x00\x00\x01\x07\x00\x07\x00",
        b"\x04\x3E\x3F\x01\x3F\x01\x40",
    )?;
    acts(
        rt,
        "64 threads, a communication that makes three, 04 3E 3F 02 3E 03 3E 01 00",
        b"\x06\x00\x01\x00",
        b"\x05\x00\x00\x00\x01\x07\x00\x01\x07\x00\x07\x00",
        b"\x04\x3E\x3F\x02\x3E\x03\x3E\x01\x00",
    )?;
    acts(
        rt,
        "64 threads, a send that makes two, 02 3E 02 3F 02 3E",
        b"\x06\x00\x01\x01\x07\x00\x07\x00",
        b"\x06\x00\x01\x00",
        b"\x02\x3E\x02\x3F\x02\x3E",
    )
}

// A sheet that begins with `head`, and goes on with `front` new names, nested, and 63 chains of sixteen new names in parallel,
// 1,008 in all; its charter is 00.
fn names(rt: &impl Print, label: &str, head: &[u8], front: usize, script: &[u8]) -> io::Result<()> {
    let new_name = b"\x03\x00\x00";
    let mut chain = Bytes::<49>::new();
    chain.put_times(16, new_name);
    chain.put(b"\x00");
    let mut sheet = Bytes::<4096>::new();
    sheet.put(head);
    sheet.put_times(front, new_name);
    sheet.put_grid(7, 9, chain.as_slice());
    let system = System {
        sheet: sheet.as_slice(),
        charter: b"\x00",
    };
    system.show(rt, label, script)
}

// Question 20 of names; free names count.
fn starts(rt: &impl Print) -> io::Result<()> {
    names(rt, "1,024 new names, no script", b"\x00", 16, b"")?;
    names(rt, "1,025 new names, no script", b"\x00", 17, b"")?;
    names(
        rt,
        "1 free name, 1,023 new, no script",
        b"\x01\x00\x00",
        15,
        b"",
    )?;
    names(
        rt,
        "1 free name, 1,024 new, no script",
        b"\x01\x00\x00",
        16,
        b"",
    )
}

// 35 of names: of names of the environment, and of unfoldings, where each makes one.
fn environment_names(rt: &impl Print) -> io::Result<()> {
    names(
        rt,
        "1,024 new names, 05 00 00",
        b"\x00",
        16,
        b"\x05\x00\x00",
    )?;
    names(
        rt,
        "1,023 new names, 05 00 00 05 00 00",
        b"\x00",
        15,
        b"\x05\x00\x00\x05\x00\x00",
    )?;
    names(
        rt,
        "1,023 new names and a repeat 07 03 00 00 00, 01 00 01 00 05 00 00",
        b"\x00\x01\x04\x00\x00\x07\x03\x00\x00\x00",
        15,
        b"\x01\x00\x01\x00\x05\x00\x00",
    )
}

// A move `count` times on a sheet of one repeat, with a log of 1,025 records: its first record and its last two are shown.
fn moves(rt: &impl Print, label: &str, count: usize, bytes: &[u8]) -> io::Result<()> {
    let mut script = Bytes::<7175>::new();
    script.put_times(count, bytes);
    let mut log = [0xAAu8; 8200];
    let answer = play(
        b"\x00\x04\x00\x00\x07\x00",
        b"\x00",
        script.as_slice(),
        &mut log,
    );
    println!(rt;
        "{label}: {},{} ..{}",
        Shown(answer),
        Hex(&log[..8]),
        Hex(&log[8184..])
    )
}

fn main(rt: HostRuntime) -> io::Result<()> {
    let rt = &rt;
    scripts(rt)?;
    refused(rt)?;
    unfoldings(rt)?;
    communications(rt)?;
    starts(rt)?;
    environment_names(rt)?;
    moves(rt, "1,024 moves 01 00", 1024, b"\x01\x00")?;
    moves(rt, "1,025 moves 01 00", 1025, b"\x01\x00")?;
    moves(
        rt,
        "1,024 moves 05 04 00 00 00 00 00",
        1024,
        b"\x05\x04\x00\x00\x00\x00\x00",
    )?;
    moves(
        rt,
        "1,025 moves 05 04 00 00 00 00 00",
        1025,
        b"\x05\x04\x00\x00\x00\x00\x00",
    )
}
