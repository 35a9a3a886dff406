// What every line map tells of its text.
ghost use Rattle.std.specs.Prelude.{◌≡◌, ℕ, ◌≤◌, List, length};
ghost use Rattle.lines.specs.Breaks.{breaks, break_ending, line_start_lem};
ghost use Rattle.line_maps.specs.Answers.{line_index};

use lines::records::LineBreak;

// A line map means a text, and tells of it whatever was called before. How it comes to its answers, and what it
// remembers, is its own. That a call keeps the text, and that the frontier does not fall, stands in clauses here and
// above: it relates a map to the one before, which no type holds.
pub trait LineMap {
    // The text that the map was opened on. Every call keeps it.
    ghost text: { Self → List ℕ };

    // How far the map has looked, 0 where it keeps no account of that. Only forget lowers it.
    ghost frontier: { Self → ℕ };

    // Where cover(o, b) may leave the frontier. It is a relation, since a map that takes memory may be refused some.
    ghost covered: { Self → ℕ → ℕ → ℕ → Type 0 };

    // Each place of the text has 32 bits.
    ghost short: { (m : Self) → length (text m) ≤ 4294967295 };

    // How many bytes the text has.
    fn length(&self) -> u32
        ensures { result ≡ length (text self.now) };

    // The line of an offset, none past the end.
    fn line_index_of(&self, offset: u32) -> Option<u32>
        ensures { result ≡ line_index (text self.now) offset };

    // The start of a line, none where there is no such line.
    fn line_start_of(&self, line: u32) -> Option<u32>
        ensures { result ≡ line_start_lem (breaks (text self.now)) line };

    // The break that ends a line, none where there is no such break.
    fn break_ending_line(&mut self, line: u32) -> Option<LineBreak>
        ensures told { result ≡ break_ending (breaks (text self.old)) line }
        ensures kept { text self.new ≡ text self.old }
        ensures onward { frontier self.old ≤ frontier self.new };

    // Tells that what comes next is about this offset and so many lines before it.
    fn cover(&mut self, offset: u32, before: u32)
        ensures kept { text self.new ≡ text self.old }
        ensures onward { frontier self.old ≤ frontier self.new }
        ensures reached { covered self.old offset before (frontier self.new) };

    // Drops what the map remembers.
    fn forget(&mut self)
        ensures kept { text self.new ≡ text self.old }
        ensures fresh { frontier self.new ≡ 0 };
}
