// The rows of the list: a source, a reading or a look-up.
//
// `source HEX` names the source of the rows after it. `read` has offset, length, before and after, and then start,
// length, line, column and line_count, or `none`. `look` has the same four numbers and an offset, and then line and
// column, or `none`. A row that begins with `#` is a comment.
use anyhow::{anyhow, bail};
use arrayvec::ArrayVec;
use label_lines::label::Label;
use lines::records::{Context, Place, SourceSpan, Window};
use lower_hex::{HexError, decode};
use std::alloc::{AllocError, Global};

#[derive(Drop)]
pub enum Row<'a> {
    Comment,
    // In hexadecimal.
    Source(&'a str),
    Read(Label, Answer<Window>),
    // The place of an offset.
    Look(Label, u32, Answer<Place>),
}

// What the original answered, which may be none; nothing where the row's numbers are no answer.
pub type Answer<T> = Option<Option<T>>;

// How many numbers a row has at most.
const MOST_NUMBERS: usize = 10;

impl<'a> Row<'a> {
    pub fn parse(row: &'a str) -> anyhow::Result<Row<'a>> {
        let mut words = row.split(' ');
        let kind = words.next().unwrap_or("");
        if kind == "#" {
            return Ok(Row::Comment);
        }
        if kind == "source" {
            return Ok(Row::Source(words.next().unwrap_or("")));
        }
        let mut numbers = ArrayVec::<u64, MOST_NUMBERS>::new();
        for word in words {
            if numbers.is_full() {
                bail!("a line has more than ten numbers");
            }
            if word == "none" {
                break;
            }
            numbers.push(word.parse::<u64>()?);
        }
        let numbers = numbers.as_slice();
        // Rows are data of a few kinds.
        match kind {
            "read" => Ok(Row::Read(label_of(numbers)?, window_of(numbers))),
            "look" => Ok(Row::Look(
                label_of(numbers)?,
                number_at(numbers, 4)?,
                place_of(numbers),
            )),
            _ => bail!("a line is no source, reading or look-up"),
        }
    }
}

// The bytes of a source, two digits each; a last digit alone names none, and the message is this list's own.
pub fn bytes_of(heap: Global, hex: &str) -> anyhow::Result<Vec<u8>> {
    let digits = hex.as_bytes();
    decode(heap, &digits[..digits.len() / 2 * 2]).map_err(|error| match error {
        HexError::OutOfMemory => AllocError.into(),
        _ => anyhow!("a source is not in hexadecimal"),
    })
}

// A number of the label, 0 where the row has none.
fn number_at(numbers: &[u64], place: usize) -> anyhow::Result<u32> {
    Ok(u32::try_from(numbers.get(place).copied().unwrap_or(0))?)
}

fn label_of(numbers: &[u64]) -> anyhow::Result<Label> {
    Ok(Label {
        span: SourceSpan::from((number_at(numbers, 0)?, number_at(numbers, 1)?)),
        context: Context {
            before: number_at(numbers, 2)?,
            after: number_at(numbers, 3)?,
        },
    })
}

// The window after the four numbers of a label.
fn window_of(numbers: &[u64]) -> Answer<Window> {
    match *numbers {
        [_, _, _, _] => Some(None),
        [_, _, _, _, start, length, line, column, line_count] => Some(Some(Window {
            start: u32::try_from(start).ok()?,
            length: u32::try_from(length).ok()?,
            line: u32::try_from(line).ok()?,
            column: u32::try_from(column).ok()?,
            line_count: u32::try_from(line_count).ok()?,
        })),
        _ => None,
    }
}

// The place after the four numbers of a label and an offset.
fn place_of(numbers: &[u64]) -> Answer<Place> {
    match *numbers {
        [_, _, _, _, _] => Some(None),
        [_, _, _, _, _, line, column] => Some(Some(Place { line, column })),
        _ => None,
    }
}
