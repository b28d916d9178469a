// A sheet's stored form in one dialect, from that in another: its forms are copied as they are, and each component's purpose is put in
// or left out.
ghost use Rattle.std.specs.Prelude.{◌≡◌, ◌+◌, ◌<◌, ◌≤◌, length, drop};
ghost use Rattle.std.proofs.Math.Seq.{paste};
ghost use Rattle.encoding.specs.Encoding.{purpose_bytes};
ghost use Rattle.encoding.specs.Copying.{if_component, form_copy, copy_from, system_start, copy_of, Put};

use crate::walking::{StoredSheet, system_start};
use reading::Dialect;

// Copies `count` bytes. A loop in place of the library's `copy_from_slice`, which calls `memmove`: the static library for C asks for
// `memcpy` and `memset` alone.
#[tactic(auto, using(memory::proofs::SpliceSteps::copy_steps))]
fn copy(out: &mut [u8], to: usize, s: &[u8], from: usize, count: usize)
    requires { (to + count ≤ length out.old) × (from + count ≤ length s.now) }
    ensures { out.new ≡ paste out.old to (drop from s.now) count }
{
    for i in 0..count {
        out[to + i] = s[from + i];
    }
}

// Puts purpose 0 at a component, where the dialect states purposes; the place after it.
#[tactic(auto, using(crate::proofs::CopySteps::purpose_puts))]
fn put_purpose(to: Dialect, code: usize, out: &mut [u8], at: usize) -> usize
    requires { at + length (if_component code (purpose_bytes to 0)) ≤ length out.old }
    ensures { Put out.old out.new at (if_component code (purpose_bytes to 0)) result }
{
    if code != 4 || to.purposes() == 0 {
        return at;
    }
    out[at] = 0;
    at + 1
}

impl<'a> StoredSheet<'a> {
    // Copies a form; the place after it.
    fn copy_form(&self, to: Dialect, from: usize, out: &mut [u8], at: usize) -> usize
        requires { (from < length self.now.bytes.now) × (at + length (form_copy to self.now.bytes.now from) ≤ length out.old) }
        ensures { Put out.old out.new at (form_copy to self.now.bytes.now from) result }
    {
        let code = self.byte(from);
        let len = self.head_len(from);
        copy(out, at, self.bytes, from, len);
        put_purpose(to, code, out, at + len)
    }

    // Copies the forms from one on, to the sheet's end; the place after them.
    fn copy_forms(&self, to: Dialect, first: usize, out: &mut [u8]) -> usize
        requires { first + length (copy_from self.now.dialect to self.now.bytes.now first) ≤ length out.old }
        ensures { Put out.old out.new first (copy_from self.now.dialect to self.now.bytes.now first) result }
    {
        let mut from = first;
        let mut at = first;
        // Kept: no count to go over, since each form's bytes tell where the next begins.
        while from < self.bytes.len() {
            at = self.copy_form(to, from, out, at);
            from = self.next_form(from);
        }
        at
    }

    /// Copies a sheet into another dialect, from the output's first byte on; the number of bytes written.
    pub fn copy_to(&self, to: Dialect, out: &mut [u8]) -> usize
        requires { (system_start self.now.bytes.now ≤ length self.now.bytes.now)
            × (length (copy_of self.now.dialect to self.now.bytes.now) ≤ length out.old) }
        ensures { Put out.old out.new 0 (copy_of self.now.dialect to self.now.bytes.now) result }
    {
        let first = system_start(self.bytes);
        copy(out, 0, self.bytes, 0, first);
        self.copy_forms(to, first, out)
    }
}
