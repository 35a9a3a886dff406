// The rows of the table.
//
// `source HEX` names the source of the rows after it. `answer LENGTH HEX` asks for the answer to a label line, and
// `fault LENGTH NUMBER LAYER FIELD PLACE` for the line of a fault, in a buffer of that length. A row that begins with
// `#` is a comment. The bytes of a source and of a line are in hexadecimal.
ghost use Rattle.std.specs.Prelude.{◌≤◌, IfOk, vec_len};

use answers::answer::{answer, write_fault};
use anyhow::{anyhow, bail};
use line_maps::plain::PlainScan;
use lines::records::Fault;
use lower_hex::{HexError, decode};
use std::alloc::{AllocError, Global};
use std::fmt::Write;

// The longest buffer that a row may ask for.
const LONGEST: usize = 60;

// What every byte of a buffer is before the call.
const FILL: u8 = 238;

// A table at one of its rows, with the source that the rows before it named.
#[derive(Drop)]
pub struct Table {
    heap: Global,
    source: Vec<u8>,
}

impl Table {
    pub fn new(heap: Global) -> Table {
        Table {
            heap,
            source: Vec::new(heap),
        }
    }

    // What the next row gives, as text; nothing for a source and for a comment.
    pub fn result(&mut self, row: &str) -> anyhow::Result<Option<String>> {
        if row.starts_with("#") {
            return Ok(None);
        }
        let words: Vec<&str> = row.split(' ').take(7).collect(self.heap)?;
        // Rows are data of a few kinds.
        match words.as_slice() {
            ["source"] => self.take_source(""),
            ["source", hex] => self.take_source(hex),
            ["answer", length] => self.answered(length, ""),
            ["answer", length, line] => self.answered(length, line),
            ["fault", length, number, layer, field, place] => self.fault_written(
                buffer_of(self.heap, length)?,
                Fault {
                    number: number.parse()?,
                    layer: layer.parse()?,
                    field: field.parse()?,
                    place: place.parse()?,
                },
            ),
            [_, _, _, _, _, _, _, ..] => bail!("a row has more than six words"),
            _ => bail!("a row is no source, answer or fault"),
        }
    }

    // The source of the rows that follow.
    fn take_source(&mut self, hex: &str) -> anyhow::Result<Option<String>> {
        self.source = bytes_of(self.heap, hex)?;
        Ok(None)
    }

    // What `answer` tells of a line in hexadecimal, and its buffer after the call.
    fn answered(&self, length: &str, line: &str) -> anyhow::Result<Option<String>> {
        let mut buffer = buffer_of(self.heap, length)?;
        let line = bytes_of(self.heap, line)?;
        let mut map = PlainScan::new(self.source.as_slice());
        let told = match answer(&mut map, line.as_slice(), buffer.as_mut_slice()) {
            Ok(count) => format!(in self.heap; "count {count}")?,
            // The only place that prints a fault's numbers so.
            Err(fault) => {
                let Fault {
                    number,
                    layer,
                    field,
                    place,
                } = Fault::from(fault);
                format!(in self.heap; "fault {number},{layer},{field},{place}")?
            }
        };
        with_buffer(told, buffer.as_slice())
    }

    // What `write_fault` tells, and its buffer after the call.
    fn fault_written(&self, mut buffer: Vec<u8>, fault: Fault) -> anyhow::Result<Option<String>> {
        let told = match write_fault(fault, buffer.as_mut_slice()) {
            Some(count) => format!(in self.heap; "count {count}")?,
            None => String::from_str(self.heap, "none")?,
        };
        with_buffer(told, buffer.as_slice())
    }
}

// A buffer of the length that a row asks for, before the call.
fn buffer_of(heap: Global, length: &str) -> anyhow::Result<Vec<u8>>
    ensures { IfOk result (λ buffer. vec_len buffer ≤ 60) }
{
    let length = length.parse()?;
    if length > LONGEST {
        bail!("a row has a buffer of more than 60 bytes");
    }
    Ok(vec![in heap; FILL; length]?)
}

// The bytes of a source or a line, with this table's own messages.
fn bytes_of(heap: Global, hex: &str) -> anyhow::Result<Vec<u8>> {
    decode(heap, hex.as_bytes()).map_err(|error| match error {
        HexError::HalfByte => anyhow!("a row has half a byte"),
        HexError::NoDigit => anyhow!("a row has a digit that is not hexadecimal"),
        HexError::OutOfMemory => AllocError.into(),
    })
}

// A text with the bytes of a buffer after it, if there are any.
fn with_buffer(mut text: String, buffer: &[u8]) -> anyhow::Result<Option<String>> {
    if !buffer.is_empty() {
        text.push(' ')?;
    }
    for byte in buffer {
        write!(text, "{byte:02x}")?;
    }
    Ok(Some(text))
}
