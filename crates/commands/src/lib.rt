// What the programs `list`, `run`, `upgrade`, `downgrade` and `stricter` do, each on the files of the folder it is run in (an absent file
// as empty).
#![tactic(auto)]

use comparing::no_looser;
use execution::play;
use explaining::examine;
use files::{first, load};
use listing::entry_line;
use reading::Question;
use std::io::Print;
use std::rt::Files;
use std::{fmt, io};

/// Room for a sheet or a charter of 4,096 bytes and one byte more: a longer one fails its question however much of it is read.
pub const SHEET_ROOM: usize = 4097;

/// Room for a script of 1,024 moves, at most 7,168 bytes, and one byte more: a longer one fails question 21 however much of it is read.
pub const SCRIPT_ROOM: usize = 7169;

/// Room for a names file of 80 names, at most 1,680 bytes, and one byte more: a longer one fails question 40 however much of it is read.
pub const NAMES_ROOM: usize = 1681;

/// Room for the log of 1,024 moves, eight bytes each.
pub const LOG_ROOM: usize = 8192;

/// Room for a moved sheet: none is longer (`upgrade_always_room` and `downgrade_always_room` in the crate moving's
/// proofs/MoveLaws.antt).
pub const MOVED_ROOM: usize = 4096;

/// Room for the slack: none is longer (`slack_always_room` in the crate slack's proofs/SlackSizes.antt).
const SLACK_ROOM: usize = 27136;

/// Room for a sentence: none is longer (`sentence_length` in the crate naming's proofs/SentenceLaws.antt).
const SENTENCE_ROOM: usize = 230;

// Prints the entries of the slack, `between` before each. Each entry has at least five bytes, so 5,428 turns reach the end.
fn print_entries(rt: &impl Print, slack: &[u8], between: &[u8]) -> io::Result<()> {
    let mut text = [0u8; 4096];
    let mut at = 0;
    for _ in 0..5428 {
        if slack.len() <= at || SLACK_ROOM <= at {
            break;
        }
        let line = entry_line(slack, at, &mut text);
        if let Some((_newline, entry)) = first(&text, line.len).split_last() {
            rt.write_all(between)?;
            rt.write_all(entry)?;
        }
        at = line.next;
    }
    Ok(())
}

// Prints why question 18 refuses a sheet, `between` before it: the sentence, or the number of the question that its names file fails.
fn print_explanation(
    rt: &impl Print,
    explained: Result<usize, Question>,
    line: &[u8],
    between: &[u8],
) -> io::Result<()> {
    rt.write_all(between)?;
    match explained {
        Ok(n) => rt.write_all(first(line, n)),
        Err(question) => print!(rt; "refused {question}"),
    }
}

/// Prints what `list` prints for a sheet, a charter and a names file, its lines parted by `between`, and a newline: `accepted` and the
/// interface with its slack, an entry a line, or `refused N`, and below 18 the sentence.
pub fn print_listing(
    rt: &impl Print,
    sheet: &[u8],
    charter: &[u8],
    names: &[u8],
    between: &[u8],
) -> io::Result<()> {
    let mut output = [0u8; SLACK_ROOM];
    let mut line = [0u8; SENTENCE_ROOM];
    let examined = examine(sheet, charter, names, &mut output, &mut line);
    match examined.told {
        Ok(n) => {
            rt.write_all(b"accepted")?;
            print_entries(rt, first(&output, n), between)?;
        }
        Err(question) => {
            print!(rt; "refused {question}")?;
            if question == Question::Covered {
                print_explanation(rt, examined.explained, &line, between)?;
            }
        }
    }
    rt.write_all(b"\n")
}

/// The program `list`: reads `sheet.bin`, `charter.bin` and `names.bin`, and prints `accepted` and the interface with its slack, or
/// `refused N` and below 18 the sentence.
pub fn list(rt: &(impl Files + Print)) -> io::Result<()> {
    let mut sheet = [0u8; SHEET_ROOM];
    let mut charter = [0u8; SHEET_ROOM];
    let mut names = [0u8; NAMES_ROOM];
    print_listing(
        rt,
        load(rt, b"sheet.bin", &mut sheet),
        load(rt, b"charter.bin", &mut charter),
        load(rt, b"names.bin", &mut names),
        b"\n",
    )
}

/// The program `run`: reads `script.bin` too, and writes the log's bytes alone, or `refused N`.
pub fn run(rt: &(impl Files + Print)) -> io::Result<()> {
    let mut sheet = [0u8; SHEET_ROOM];
    let mut charter = [0u8; SHEET_ROOM];
    let mut script = [0u8; SCRIPT_ROOM];
    let mut log = [0u8; LOG_ROOM];
    let answer = play(
        load(rt, b"sheet.bin", &mut sheet),
        load(rt, b"charter.bin", &mut charter),
        load(rt, b"script.bin", &mut script),
        &mut log,
    );
    match answer {
        Ok(moves) => rt.write_all(first(&log, moves.saturating_mul(8))),
        Err(question) => println!(rt; "refused {question}"),
    }
}

/// Writes a moved sheet's bytes alone, or `refused N`, where `N` is a question or any number.
pub fn write_moved<Q: fmt::Display + Drop>(
    rt: &impl Print,
    answer: Result<usize, Q>,
    output: &[u8],
) -> io::Result<()> {
    match answer {
        Ok(n) => rt.write_all(first(output, n)),
        Err(question) => println!(rt; "refused {question}"),
    }
}

// Reads `sheet.bin`, moves it by a service, and writes its other form, or `refused N`.
fn move_sheet<F: Fn(&[u8], &mut [u8]) -> Result<usize, Question>>(
    rt: &(impl Files + Print),
    service: F,
) -> io::Result<()>
    requires { F.IsAlwaysCallable service }
{
    let mut sheet = [0u8; SHEET_ROOM];
    let mut output = [0u8; MOVED_ROOM];
    let answer = service(load(rt, b"sheet.bin", &mut sheet), &mut output);
    write_moved(rt, answer, &output)
}

/// The program `upgrade`: reads `sheet.bin`, an old sheet, and writes its new form, or `refused N`.
pub fn upgrade(rt: &(impl Files + Print)) -> io::Result<()> {
    move_sheet(rt, moving::upgrade)
}

/// The program `downgrade`: the same from the new form to the old.
pub fn downgrade(rt: &(impl Files + Print)) -> io::Result<()> {
    move_sheet(rt, moving::downgrade)
}

/// Prints `yes` if the first charter is no looser than the second, and `no` otherwise, as a line.
pub fn print_compared(rt: &impl Print, charter: &[u8], before: &[u8]) -> io::Result<()> {
    let answer = if no_looser(charter, before) {
        "yes"
    } else {
        "no"
    };
    println!(rt; "{answer}")
}

/// The program `stricter`: reads `charter.bin`, a new charter, and `before.bin`, the one in service, and prints `yes` or `no`.
pub fn stricter(rt: &(impl Files + Print)) -> io::Result<()> {
    let mut charter = [0u8; SHEET_ROOM];
    let mut before = [0u8; SHEET_ROOM];
    print_compared(
        rt,
        load(rt, b"charter.bin", &mut charter),
        load(rt, b"before.bin", &mut before),
    )
}
