// Group paths: the empty path, membership, and one group more.
ghost use Rattle.std.specs.Prelude.{◌≡◌, true, [], ◌∷◌, ◌++◌, ◌<◌, ltb, length};
ghost use Rattle.reading.specs.Forms.{member};
ghost use Rattle.reading.specs.Told.{path_of};

use crate::Path;

impl Path {
    /// The path of no group.
    pub fn empty() -> Path
        ensures { path_of result ≡ [] }
    {
        Path {
            groups: [0; 8],
            len: 0,
        }
    }

    /// The groups of the path, the innermost last.
    pub fn groups(&self) -> &[u16]
        ensures { result.now ≡ path_of self.now }
    {
        &self.groups[..self.len.min(8)]
    }

    /// Does the group stand in the path?
    #[tactic(auto, using(crate::proofs::PathLaws::has_steps))]
    pub fn has(&self, group: usize) -> bool
        ensures { result ≡ member group (path_of self.now) }
    {
        for held in self.groups() {
            if *held as usize == group {
                return true;
            }
        }
        false
    }

    /// Is there room for one more group?
    #[tactic(auto, using(crate::proofs::PathLaws::path_steps))]
    pub fn has_room(&self) -> bool
        ensures { result ≡ ltb (length (path_of self.now)) 8 }
    {
        self.len < 8
    }

    /// The path with one group more at its end, where there is room. Groups are below 64.
    #[tactic(auto, using(crate::proofs::PathLaws::path_steps))]
    pub fn with(&self, group: usize) -> Path
        ensures { ltb (length (path_of self.now)) 8 ≡ true → group < 65536 → path_of result ≡ path_of self.now ++ (group ∷ []) }
    {
        let mut path = *self;
        if path.len < 8 {
            // `as` alone is to lose nothing, and no caller is asked that the group is small.
            path.groups[path.len] = (group % 65536) as u16;
            path.len += 1;
        }
        path
    }
}
