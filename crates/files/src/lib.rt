// What the programs share: a file read into a buffer, and the first bytes of a buffer.
#![tactic(auto)]

ghost use Rattle.std.specs.Prelude.{◌≡◌, ◌≤◌, length, take};

use std::fs::File;
use std::io::Read;
use std::rt::Files;

/// Reads into a buffer until it is full, nothing more comes or a read fails; how many bytes there were.
pub fn read_full(source: &mut impl Read, buf: &mut [u8]) -> usize
    ensures { result ≤ length buf.new }
{
    let mut done = 0;
    // A `while`: a read may give fewer bytes than there is room for, so no count of turns says where it ends.
    while done < buf.len() {
        match source.read(&mut buf[done..]) {
            Ok(0) | Err(_) => break,
            Ok(count) => done += count,
        }
    }
    done
}

/// A file's bytes, read into a buffer, as many as fit; an absent file has none, nor has one whose path is not text: std opens none such.
pub fn load<'a>(rt: &impl Files, path: &[u8], buf: &'a mut [u8]) -> &'a [u8]
    ensures { length result.now ≤ length buf.old }
{
    // The path is bytes, as it has been: a `&str` would ask more of a caller.
    let Ok(text) = str::from_utf8(path) else {
        return &[];
    };
    let Ok(mut file) = File::open(rt, text) else {
        return &[];
    };
    let count = read_full(&mut file, buf);
    &buf[..count]
}

/// The first bytes of a buffer. What is composed or answered fits its buffer, so the whole buffer is never taken.
pub fn first(buf: &[u8], n: usize) -> &[u8]
    ensures { result.now ≡ take n buf.now }
{
    buf.get(..n).unwrap_or(buf)
}
