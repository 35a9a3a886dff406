// A line to write: made whole, then put into a buffer whole or not at all.
ghost use Rattle.std.specs.Prelude.{◌≡◌, ◌≤◌, length};
ghost use Rattle.answers.specs.Written.{parted_text, filled, count_in};

use crate::answer::LONGEST_LINE;
use arrayvec::ArrayString;
use itoa::Buffer;

// A text with room for every line to write.
pub(crate) type Row = ArrayString<LONGEST_LINE>;

// A word and four numbers, parted by commas and closed by LF.
pub(crate) fn row(first: &str, numbers: [u32; 4]) -> Row
    requires { length first.now ≤ 10 }
    ensures { result.bytes ≡ parted_text first.now numbers }
{
    let mut digits = Buffer::new();
    let mut row = Row::new();
    row.push_str(first);
    for number in numbers {
        row.push(',');
        row.push_str(digits.format(number));
    }
    row.push('\n');
    row
}

// Puts a text into the first bytes of a buffer and answers how many those are, or none where the buffer is shorter.
pub(crate) fn put(text: &str, out: &mut [u8]) -> Option<usize>
    ensures count { result ≡ count_in out.old text.now }
    ensures out { out.new ≡ filled out.old text.now }
{
    let bytes = text.as_bytes();
    if out.len() < bytes.len() {
        return None;
    }
    out[..bytes.len()].copy_from_slice(bytes);
    Some(bytes.len())
}
