// Reading into a buffer of a fixed size.
#![tactic(auto)]

ghost use Rattle.std.specs.Prelude.{◌≡◌, IfOk, None};
ghost use Rattle.inputs.specs.Filling.{Holds, bytes_in_lem};

use std::io::{ErrorKind, Read};
use std::rt::Files;
use std::{fs, io};

// What became of an input in a buffer.
#[derive(Clone, Copy, PartialEq, Eq, Debug)]
pub enum Filled {
    // It has so many bytes, and all of them stand at the buffer's front.
    Whole(usize),
    // It has more bytes than the buffer, which is full.
    Cut,
}

impl Filled {
    // The input's bytes in the buffer.
    pub fn bytes_in(self, buf: &[u8]) -> &[u8]
        ensures { result.now ≡ bytes_in_lem self buf.now }
    {
        match self {
            Filled::Whole(count) => &buf[..count.min(buf.len())],
            Filled::Cut => buf,
        }
    }
}

// Reads until the buffer is full or nothing more comes, and then looks for one byte more. By `read`, since `read_exact`
// does not tell how many bytes a short input had, and `read_to_end` needs a Vec.
// After an error the buffer holds what was read before it.
pub fn fill<R: Read>(from: &mut R, buf: &mut [u8]) -> io::Result<Filled>
    ensures { IfOk result (Holds buf.new (R.remaining from.old)) }
{
    let mut count = 0;
    while count < buf.len() {
        let got = from.read(&mut buf[count..])?;
        if got == 0 {
            return Ok(Filled::Whole(count));
        }
        count += got;
    }
    let mut next = [0u8; 1];
    if from.read(&mut next)? == 0 {
        Ok(Filled::Whole(count))
    } else {
        Ok(Filled::Cut)
    }
}

// The same from a file; a missing file counts as empty.
pub fn fill_from_file<F: Files>(rt: &F, path: &str, buf: &mut [u8]) -> io::Result<Filled>
    ensures { IfOk result (Holds buf.new None) }
{
    match fs::open(rt, path) {
        Ok(mut file) => fill(&mut file, buf),
        Err(error) if error.kind() == ErrorKind::NotFound => Ok(Filled::Whole(0)),
        Err(error) => Err(error),
    }
}

#[cfg(test)]
mod tests {
    use super::*;
    use std::test::Fail;

    // What `fill` makes of five bytes in a buffer of eight, of five and of three.
    #[test]
    fn fills_up_to_the_buffer(rt: HostRuntime) -> Result<(), Fail> {
        let mut roomy = [0u8; 8];
        let mut exact = [0u8; 5];
        let mut small = [0u8; 3];
        assert_eq!(rt;
            fill(&mut b"bytes".as_slice(), &mut roomy)?,
            Filled::Whole(5)
        );
        assert_eq!(rt;
            fill(&mut b"bytes".as_slice(), &mut exact)?,
            Filled::Whole(5)
        );
        assert_eq!(rt; fill(&mut b"bytes".as_slice(), &mut small)?, Filled::Cut);
        assert_eq!(rt; roomy, *b"bytes\0\0\0");
        assert_eq!(rt; small, *b"byt");
        Ok(())
    }

    #[test]
    fn missing_file_is_empty(rt: HostRuntime) -> Result<(), Fail> {
        let mut buf = [7u8; 2];
        let filled = fill_from_file(&rt, "no/such/file", &mut buf)?;
        assert_eq!(rt; filled, Filled::Whole(0));
        assert_eq!(rt; buf, [7, 7]);
        Ok(())
    }
}
