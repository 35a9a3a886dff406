// An odd line map: it sits on another one, tells that to forget before each break it asks for, covers what it was not
// told to cover, and keeps no frontier. It is a line map all the same, and nothing that is read through it shows.
ghost use Rattle.std.specs.Prelude.{◌≡◌};

use line_maps::map::LineMap;
use lines::records::LineBreak;

#[derive(Drop)]
pub struct Forgetful<M> {
    inner: M,
}

impl<M> Forgetful<M> {
    pub fn new(inner: M) -> Forgetful<M>
        ensures { result.inner ≡ inner }
    {
        Forgetful { inner }
    }
}

impl<M: LineMap> LineMap for Forgetful<M> {
    ghost text = { λ m. M.text m.inner };

    ghost frontier = { λ _. 0 };

    ghost covered = { λ _ _ _ f. f ≡ 0 };

    ghost short = { λ m. M.short m.inner };

    fn length(&self) -> u32 {
        self.inner.length()
    }

    fn line_index_of(&self, offset: u32) -> Option<u32> {
        self.inner.line_index_of(offset)
    }

    fn line_start_of(&self, line: u32) -> Option<u32> {
        self.inner.line_start_of(line)
    }

    fn break_ending_line(&mut self, line: u32) -> Option<LineBreak> {
        self.inner.forget();
        self.inner.break_ending_line(line)
    }

    fn cover(&mut self, offset: u32, before: u32) {
        self.inner.cover(before, offset);
    }

    fn forget(&mut self) {
        self.inner.cover(0, 0);
    }
}
