// The composer of the sentence for an uncovered permission: fixed byte strings between names, verbs being fixed byte strings too.
ghost use Rattle.std.specs.Prelude.{◌≡◌, ◌∷◌, [], ◌+◌, ◌<◌, ◌≤◌, length};
ghost use Rattle.reading.specs.Told.{path_of};
ghost use Rattle.interface.specs.Writes.{Stored};
ghost use Rattle.fit.specs.Covers.{permission_in};
ghost use Rattle.naming.specs.Sentence.{name_of, path_names, verb, of_kind, sentence};
ghost use Rattle.naming.specs.Told.{words_at, step_text, names_at_places};
ghost use Rattle.naming.specs.Line.{Put};

use crate::letters::word_at;
use fit::{Missing, Permission};
use reading::Path;

// A list of names: the file in which they stand, and where each begins.
#[derive(Clone, Copy)]
struct NameList<'a> {
    file: &'a [u8],
    places: &'a [u16],
}

impl<'a> NameList<'a> {
    // The name of a number, nothing past the list's end.
    #[tactic(auto, using(crate::proofs::SentenceSteps::sentence_steps))]
    fn name(self, n: usize) -> &'a [u8]
        ensures value { result.now ≡ name_of (words_at self.entry.file.now self.entry.places.now) n }
        ensures few { length result.now ≤ 20 }
    {
        let places = self.places;
        if places.len() <= n {
            return &[];
        }
        word_at(self.file, places[n] as usize)
    }
}

// A line as it is composed: its bytes stand in the lent memory as far as there is room, and all of them are counted.
#[derive(Drop)]
struct Line<'a> {
    out: &'a mut [u8],
    len: usize,
}

impl<'a> Line<'a> {
    // Adds a byte.
    #[tactic(auto, using(crate::proofs::SentenceSteps::sentence_steps))]
    fn put_byte(&mut self, byte: u8)
        requires { self.old.len < 2000 }
        ensures { Put self.old self.new (byte ∷ []) }
    {
        if self.len < self.out.len() {
            self.out[self.len] = byte;
        }
        self.len += 1;
    }

    // Adds a text.
    #[tactic(auto, using(crate::proofs::SentenceSteps::sentence_steps))]
    fn put(&mut self, text: &[u8])
        requires { (self.old.len < 1000) × (length text.now ≤ 20) }
        ensures { Put self.old self.new text.now }
    {
        for byte in text {
            self.put_byte(*byte);
        }
    }

    // Adds the name of the i-th group of a path, with a slash before it but for the first.
    #[tactic(auto, using(crate::proofs::SentenceSteps::sentence_steps))]
    fn put_step(&mut self, groups: NameList<'_>, i: usize, group: usize)
        requires { self.old.len < 900 }
        ensures { Put self.old self.new (step_text (words_at groups.entry.file.now groups.entry.places.now) i group) }
    {
        let name = groups.name(group);
        if i == 0 {
            self.put(name);
            return;
        }
        self.put(b"/");
        self.put(name);
    }

    // Adds the names of a path's groups, joined by slashes, to an empty line.
    #[tactic(auto, using(crate::proofs::SentenceSteps::sentence_steps))]
    fn put_path(&mut self, groups: NameList<'_>, path: Path)
        requires { self.old.len ≡ 0 }
        ensures put { Put self.old self.new (path_names (words_at groups.entry.file.now groups.entry.places.now) (path_of path)) }
        ensures near { self.new.len ≤ 168 }
    {
        let steps = path.groups();
        for (i, group) in steps.iter().enumerate() {
            self.put_step(groups, i, *group as usize);
        }
    }

    // Adds the verb of a permission.
    #[tactic(auto, using(crate::proofs::SentenceSteps::sentence_steps))]
    fn put_verb(&mut self, groups: NameList<'_>, permission: Permission)
        requires { self.old.len < 800 }
        ensures put { Put self.old self.new (verb (words_at groups.entry.file.now groups.entry.places.now) (permission_in permission)) }
        ensures near { self.new.len ≤ self.old.len + 40 }
    {
        match permission {
            Permission::Read => self.put(b"read"),
            Permission::Write => self.put(b"write"),
            Permission::Access => self.put(b"access"),
            Permission::Disclose(group) => {
                self.put(b"disclose to ");
                self.put(groups.name(group));
            }
        }
    }

    // Adds the kind's part of a sentence.
    #[tactic(auto, using(crate::proofs::SentenceSteps::sentence_steps))]
    fn put_kind(&mut self, kinds: NameList<'_>, kind: usize)
        requires { self.old.len < 900 }
        ensures { Put self.old self.new (of_kind (words_at kinds.entry.file.now kinds.entry.places.now) kind) }
    {
        self.put(b": ");
        self.put(kinds.name(kind));
    }
}

/// The names that a names file gives: the file, and the places at which the names of the groups and those of the kinds begin.
#[derive(Clone, Copy)]
pub struct Names<'a> {
    pub file: &'a [u8],
    pub groups: &'a [u16],
    pub kinds: &'a [u16],
}

impl<'a> Names<'a> {
    /// Stores the sentence for an uncovered permission of a path, as much of it as there is room for, and answers its length.
    #[tactic(auto, using(crate::proofs::SentenceSteps::sentence_steps))]
    pub fn put_sentence(&self, path: Path, missing: Missing, out: &mut [u8]) -> usize
        ensures { Stored out.old out.new 0
            (sentence (names_at_places self.now.file.now self.now.groups.now self.now.kinds.now)
            (record { path = path_of path; permission = permission_in missing.permission; kind = missing.kind })) result }
    {
        let Names {
            file,
            groups,
            kinds,
        } = *self;
        let group_names = NameList {
            file,
            places: groups,
        };
        let kind_names = NameList {
            file,
            places: kinds,
        };
        let mut line = Line { out, len: 0 };
        line.put_path(group_names, path);
        line.put(b" may not ");
        line.put_verb(group_names, missing.permission);
        line.put_kind(kind_names, missing.kind);
        line.len
    }
}
