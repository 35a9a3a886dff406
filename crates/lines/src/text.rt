// What a call sees of a source.
ghost use Rattle.std.specs.Prelude.{◌≡◌, ◌≤◌, ◌==◌, length};
ghost use Rattle.lines.specs.Breaks.{seen};

// How many bytes of a source a call sees: as many as have a place of 32 bits.
const MOST_BYTES: usize = 4_294_967_295;

// What a call sees of a source: its first 4,294,967,295 bytes.
pub fn seen_bytes(source: &[u8]) -> &[u8]
    ensures { result.now ≡ seen source.now }
{
    &source[0..source.len().min(MOST_BYTES)]
}

// A slice that a call sees whole, so that each place in it, and its length, has 32 bits.
#[derive(Clone, Copy)]
pub struct Text<'a> {
    slice: &'a [u8],
    ghost short: { length slice.now ≤ 4294967295 },
}

impl<'a> Text<'a> {
    // What a call sees of the source.
    pub fn new(source: &'a [u8]) -> Text<'a>
        ensures { result.slice.now ≡ seen source.now }
    {
        Text {
            slice: seen_bytes(source),
        }
    }

    pub fn bytes(&self) -> &'a [u8]
        ensures { result.now ≡ self.now.slice.now }
    {
        self.slice
    }

    pub fn len(&self) -> u32
        ensures { result ≡ length self.now.slice.now }
    {
        self.bytes().len() as u32
    }

    pub fn is_empty(&self) -> bool
        ensures { result ≡ (length self.now.slice.now == 0) }
    {
        self.len() == 0
    }
}
