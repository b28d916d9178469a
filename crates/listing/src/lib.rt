// What the program `list` prints for an entry that is stored with its slack: kind, path:purpose, then of r, w, a, dG:needed/granted those
// held.
#![tactic(auto)]

ghost use Rattle.std.specs.Prelude.{◌≡◌, [], ◌∷◌, ◌++◌, ◌+◌, ◌*◌, ◌<◌, ◌≤◌, ◌%◌, get_or};
ghost use Rattle.interface.specs.Writes.{Stored};
ghost use Rattle.policy.specs.Syntax.{has_bit};
ghost use Rattle.listing.specs.Text.{
  decimal_of,
  decimal,
  dots,
  path_text,
  bytes_at,
  flag_text,
  flags_text,
  count_text,
  item_text,
  text_of,
  number_at,
  item_at,
  items_text,
  items_at,
  head_text,
  items_in,
  end_of,
  line_at,
  next_at,
};

use policy::nodes::has_bit;

/// A line that was composed: how long it is, and the place of the next entry.
#[derive(Clone, Copy)]
pub struct Line {
    pub len: usize,
    pub next: usize,
}

// The count that is unlimited, as it is stored.
const UNLIMITED: usize = 65535;

// The byte at a place, 0 past the end.
fn byte_at(s: &[u8], at: usize) -> usize
    ensures { (result ≡ get_or s.now at 0) × (result < 256) }
{
    s.get(at).copied().unwrap_or(0) as usize
}

// The number at a place in two bytes, the low byte first.
#[tactic(auto, using(crate::proofs::ListingSteps::listing_steps))]
fn number(s: &[u8], at: usize) -> usize
    requires { at < 2100000000 }
    ensures { result ≡ number_at s.now at }
{
    byte_at(s, at) + 256 * byte_at(s, at + 1)
}

// The text of a line as it is composed: its bytes stand in the lent memory as far as there is room, and all of them are counted.
#[derive(Drop)]
struct Text<'a> {
    out: &'a mut [u8],
    len: usize,
}

impl<'a> Text<'a> {
    ghost use Rattle.listing.specs.Put.{Put};

    // Adds a byte.
    #[tactic(auto, using(crate::proofs::ListingSteps::listing_steps))]
    fn put(&mut self, byte: u8)
        requires { self.old.len < 1000000 }
        ensures { Put self.old self.new (byte ∷ []) }
    {
        if self.len < self.out.len() {
            self.out[self.len] = byte;
        }
        self.len += 1;
    }

    // Adds a number of at most `digits` decimal digits.
    #[tactic(auto, using(crate::proofs::ListingSteps::listing_steps))]
    fn put_digits(&mut self, n: usize, digits: usize)
        requires { (self.old.len < 900000) × (digits ≤ 5) }
        ensures put { Put self.old self.new (decimal_of digits n) }
        ensures near { self.new.len ≤ self.old.len + digits }
    {
        if digits == 0 {
            return;
        }
        if n < 10 {
            self.put(b'0' + n as u8);
            return;
        }
        self.put_digits(n / 10, digits - 1);
        self.put(b'0' + (n % 10) as u8);
    }

    // Adds a number.
    #[tactic(auto, using(crate::proofs::ListingSteps::listing_steps))]
    fn put_decimal(&mut self, n: usize)
        requires { self.old.len < 900000 }
        ensures put { Put self.old self.new (decimal n) }
        ensures near { self.new.len ≤ self.old.len + 5 }
    {
        self.put_digits(n, 5);
    }

    // Adds a mark and a number.
    #[tactic(auto, using(crate::proofs::ListingSteps::listing_steps))]
    fn put_number(&mut self, mark: u8, n: usize)
        requires { self.old.len < 800000 }
        ensures put { Put self.old self.new (mark ∷ decimal n) }
        ensures near { self.new.len ≤ self.old.len + 6 }
    {
        self.put(mark);
        self.put_decimal(n);
    }

    // Adds groups, a dot before each.
    #[tactic(auto, using(crate::proofs::ListingSteps::listing_steps))]
    fn put_dots(&mut self, s: &[u8], from: usize, len: usize)
        requires { (from < 1000000000) × (len < 256) × (self.old.len < 200000) }
        ensures put { Put self.old self.new (dots (bytes_at len s.now from)) }
        ensures near { self.new.len ≤ self.old.len + 6 * len }
    {
        for i in 0..len {
            self.put_number(b'.', byte_at(s, from + i));
        }
    }

    // Adds the groups of a path, parted by dots.
    #[tactic(auto, using(crate::proofs::ListingSteps::listing_steps))]
    fn put_path(&mut self, s: &[u8], from: usize, len: usize)
        requires { (from < 100000000) × (len < 256) × (self.old.len < 100000) }
        ensures put { Put self.old self.new (path_text (bytes_at len s.now from)) }
        ensures near { self.new.len ≤ self.old.len + 6 * len }
    {
        if len == 0 {
            return;
        }
        self.put_decimal(byte_at(s, from));
        self.put_dots(s, from + 1, len - 1);
    }

    // Adds a space and a letter, where a bit of the map stands.
    #[tactic(auto, using(crate::proofs::ListingSteps::listing_steps))]
    fn put_flag(&mut self, map: usize, value: usize, letter: u8)
        requires { (0 < value) × (self.old.len < 900000) }
        ensures put { Put self.old self.new (flag_text (has_bit value map) letter) }
        ensures near { self.new.len ≤ self.old.len + 2 }
    {
        if !has_bit(map, value) {
            return;
        }
        self.put(b' ');
        self.put(letter);
    }

    // Adds a count: a star for unlimited.
    #[tactic(auto, using(crate::proofs::ListingSteps::listing_steps))]
    fn put_count(&mut self, count: usize)
        requires { self.old.len < 900000 }
        ensures put { Put self.old self.new (count_text count) }
        ensures near { self.new.len ≤ self.old.len + 5 }
    {
        if count == UNLIMITED {
            self.put(b'*');
            return;
        }
        self.put_decimal(count);
    }

    // Adds a mark and a count.
    #[tactic(auto, using(crate::proofs::ListingSteps::listing_steps))]
    fn put_marked(&mut self, mark: u8, count: usize)
        requires { self.old.len < 800000 }
        ensures put { Put self.old self.new (mark ∷ count_text count) }
        ensures near { self.new.len ≤ self.old.len + 6 }
    {
        self.put(mark);
        self.put_count(count);
    }

    // Adds a space, d, the group, a colon and what is needed, a slash and what is granted.
    #[tactic(auto, using(crate::proofs::ListingSteps::listing_steps))]
    fn put_item(&mut self, group: usize, needed: usize, granted: usize)
        requires { self.old.len < 700000 }
        ensures { Put self.old self.new (item_text group needed granted) }
    {
        self.put(b' ');
        self.put_number(b'd', group);
        self.put_marked(b':', needed);
        self.put_marked(b'/', granted);
    }

    // Adds the item that stands at a place.
    #[tactic(auto, using(crate::proofs::ListingSteps::listing_steps))]
    fn put_item_at(&mut self, s: &[u8], place: usize)
        requires { (place < 2000000000) × (self.old.len < 700000) }
        ensures { Put self.old self.new (text_of (item_at s.now place)) }
    {
        let group = byte_at(s, place);
        let needed = number(s, place + 1);
        let granted = number(s, place + 3);
        self.put_item(group, needed, granted);
    }

    // Adds the items that stand from a place on.
    #[tactic(auto, using(crate::proofs::ListingSteps::listing_steps))]
    fn put_items(&mut self, s: &[u8], from: usize, count: usize)
        requires { (from < 1000000000) × (count < 256) × (self.old.len < 100000) }
        ensures put { Put self.old self.new (items_text (items_at count s.now from)) }
        ensures near { self.new.len ≤ self.old.len + 19 * count }
    {
        for i in 0..count {
            self.put_item_at(s, from + 5 * i);
        }
    }

    // Adds the flags of a map.
    #[tactic(auto, using(crate::proofs::ListingSteps::listing_steps))]
    fn put_flags(&mut self, map: usize)
        requires { self.old.len < 50000 }
        ensures put { Put self.old self.new (flags_text (has_bit 1 map) (has_bit 2 map) (has_bit 4 map)) }
        ensures near { self.new.len ≤ self.old.len + 6 }
    {
        self.put_flag(map, 1, b'r');
        self.put_flag(map, 2, b'w');
        self.put_flag(map, 4, b'a');
    }

    // Adds a path, a colon, and the purpose that stands after the path.
    #[tactic(auto, using(crate::proofs::ListingSteps::listing_steps))]
    fn put_component(&mut self, s: &[u8], from: usize, len: usize)
        requires { (from < 100000000) × (len < 256) × (self.old.len < 100000) }
        ensures put { Put self.old self.new
            (path_text (bytes_at len s.now from) ++ (58 ∷ decimal (get_or s.now (from + len) 0))) }
        ensures near { self.new.len ≤ self.old.len + 6 * len + 6 }
    {
        self.put_path(s, from, len);
        self.put_number(b':', byte_at(s, from + len));
    }

    // Adds to an empty line the kind of the entry at a place, a space, and its path with its purpose.
    #[tactic(auto, using(crate::proofs::ListingSteps::listing_steps))]
    fn put_head(&mut self, s: &[u8], at: usize, len: usize)
        requires { (at < 1000000) × (len < 256) × (self.old.len ≡ 0) }
        ensures put { Put self.old self.new
            (head_text (get_or s.now at 0) (bytes_at len s.now (at + 2)) (get_or s.now (at + 2 + len) 0)) }
        ensures near { self.new.len ≤ 2000 }
    {
        self.put_decimal(byte_at(s, at));
        self.put(b' ');
        self.put_component(s, at + 2, len);
    }

    // Adds the flags of an entry, its items, and a newline.
    #[tactic(auto, using(crate::proofs::ListingSteps::listing_steps))]
    fn put_tail(&mut self, s: &[u8], map: usize, from: usize, items: usize)
        requires { (from < 1000000000) × (items < 256) × (self.old.len < 50000) }
        ensures { Put self.old self.new
            (flags_text (has_bit 1 map) (has_bit 2 map) (has_bit 4 map) ++ (items_text (items_at items s.now from) ++ (10 ∷ []))) }
    {
        self.put_flags(map);
        self.put_items(s, from, items);
        self.put(b'\n');
    }
}

// How many items the list of an entry has.
#[tactic(auto, using(crate::proofs::ListingSteps::listing_steps))]
fn item_count(s: &[u8], map: usize, list: usize) -> usize
    ensures value { result ≡ items_in (has_bit 16 map) s.now list }
    ensures few { result < 256 }
{
    if has_bit(map, 16) {
        byte_at(s, list)
    } else {
        0
    }
}

// The place after an entry's map, or after its list.
#[tactic(auto, using(crate::proofs::ListingSteps::listing_steps))]
fn after(map: usize, list: usize, items: usize) -> usize
    requires { (list < 1000000000) × (items < 256) }
    ensures { result ≡ end_of (has_bit 16 map) list items }
{
    if has_bit(map, 16) {
        list + 1 + 5 * items
    } else {
        list
    }
}

/// Composes the line of the entry that is stored with its slack at a place, from the first byte of `out` on.
#[tactic(auto, using(crate::proofs::ListingSteps::listing_steps))]
pub fn entry_line(s: &[u8], at: usize, out: &mut [u8]) -> Line
    requires { at < 1000000 }
    ensures next_value { result.next ≡ next_at s.now at }
    ensures stored { Stored out.old out.new 0 (line_at s.now at) result.len }
{
    let len = byte_at(s, at + 1);
    let map = byte_at(s, at + 3 + len);
    let list = at + 4 + len;
    let items = item_count(s, map, list);
    let next = after(map, list, items);
    let mut text = Text { out, len: 0 };
    text.put_head(s, at, len);
    text.put_tail(s, map, list + 1, items);
    Line {
        len: text.len,
        next,
    }
}
