// The parts of a label line, handed out one by one.
ghost use Rattle.std.specs.Prelude.{◌≡◌, ◌+◌, ◌≤◌, ◌==◌, true, length, position};
ghost use Rattle.label_lines.specs.Parts.{piece_of, piece_at, place_after_lem, due_after, field_length};

// A part of a label line. A field is the bytes between two commas, or between a comma and an end of the line.
#[derive(Drop)]
pub enum Part<'a> {
    Field(&'a [u8]),
    Comma,
    // A part like the others, which the reader hands out for ever after.
    End,
}

// A part and the place where it starts.
#[derive(Drop)]
pub struct Placed<'a> {
    pub part: Part<'a>,
    pub place: usize,
}

// It hands out a field first, then a comma and a field in turn, and at the end of the line `End` for ever after.
#[derive(Drop)]
pub struct LabelReader<'a> {
    line: &'a [u8],
    at: usize,
    // Whether a field is due here, and else a comma: no value stands beside it, and the definitions go by it.
    due: bool,
    ghost within: { at ≤ length line.now },
}

impl<'a> LabelReader<'a> {
    pub fn new(line: &'a [u8]) -> LabelReader<'a>
        ensures line { result.line.now ≡ line.now }
        ensures at { result.at ≡ 0 }
        ensures due { result.due ≡ true }
    {
        LabelReader {
            line,
            at: 0,
            due: true,
        }
    }

    // The next part, and the reader moves past it.
    pub fn next(&mut self) -> Placed<'a>
        ensures part { piece_of result.part ≡ piece_at self.old.line.now self.old.at self.old.due }
        ensures place { result.place ≡ self.old.at }
        ensures line { self.new.line.now ≡ self.old.line.now }
        ensures at { self.new.at ≡ place_after_lem self.old.line.now self.old.at self.old.due }
        ensures due { self.new.due ≡ due_after self.old.line.now self.old.at self.old.due }
    {
        let place = self.at;
        let part = if self.due {
            self.at = field_end(self.line, place);
            self.due = false;
            Part::Field(&self.line[place..self.at])
        } else if place < self.line.len() {
            self.at += 1;
            self.due = true;
            Part::Comma
        } else {
            Part::End
        };
        Placed { part, place }
    }
}

// Where the field ends that starts here: at the next comma, or with the line.
fn field_end(line: &[u8], from: usize) -> usize
    requires { from ≤ length line.now }
    ensures end { result ≡ from + field_length line.now from }
    ensures within { (from ≤ result) × (result ≤ length line.now) }
{
    let rest = &line[from..];
    from + first_comma(rest).unwrap_or(rest.len())
}

// The place of the first comma, if there is one.
fn first_comma(bytes: &[u8]) -> Option<usize>
    ensures { result ≡ position (λ byte. byte == 44) bytes.now }
{
    bytes.iter().position(|byte| *byte == b',')
}
