// The way to the next CR or LF, which everything that finds breaks goes.
//
// Most lines are short, so it looks at 16 bytes first, and then at 16 bytes at a time. After 96 bytes without a hit it
// passes over blocks of 256, whose test the compiler turns into a few vector instructions. The last bytes of the text are
// looked at one by one.
ghost use Rattle.std.specs.Prelude.{◌≡◌, ℕ, ◌+◌, ◌<◌, ◌≤◌, min, true, map, length, take, ◌≢◌, slice_index, position, nat_lt, ◌&&◌};
ghost use Rattle.std.specs.Simd.Lanes.{mask_l};
ghost use Rattle.std.specs.List.{prefix_len, fold};
ghost use Rattle.lines.specs.LineRule.{ends_line_lem};
ghost use Rattle.lines.specs.Endings.{is_plain, is_far, next_ending_lem};

use std::simd::prelude::*;

const CR: u8 = b'\r';

const LF: u8 = b'\n';

// How far past its first 16 bytes the search looks at 16 bytes at a time before it passes over blocks of 256.
const NEAR: usize = 80;

// The first place from `from` on that holds CR or LF, or the length where there is none.
pub fn next_ending(text: &[u8], from: usize) -> usize
    ensures { result ≡ next_ending_lem text.now from }
{
    if from > text.len() {
        return text.len();
    }
    let Some(block) = text[from..].first_chunk::<16>() else {
        return next_by_16(text, from);
    };
    let front = plain_front(block);
    if front < 16 {
        return from + front;
    }
    next_far(text, from + 16)
}

// The same, where no CR or LF came at once.
fn next_far(text: &[u8], from: usize) -> usize
    requires { from ≤ length text.now }
    ensures { result ≡ next_ending_lem text.now from }
{
    let near = from + NEAR.min(text.len() - from);
    let found = next_by_16(&text[..near], from);
    if found < near {
        return found;
    }
    next_by_16(text, skip_blocks(text, near))
}

// The same, 16 bytes at a time, and byte by byte in what is left. Inlined, so that the search of a short line makes no
// call.
#[inline(always)]
fn next_by_16(text: &[u8], from: usize) -> usize
    requires { from ≤ length text.now }
    ensures { result ≡ next_ending_lem text.now from }
{
    let (blocks, rest) = text[from..].as_chunks::<16>();
    if let Some(i) = first_block(blocks) {
        return from + 16 * i + plain_front(&blocks[i]);
    }
    match first_ending(rest) {
        Some(i) => text.len() - rest.len() + i,
        None => text.len(),
    }
}

// The first of some blocks that holds CR or LF.
fn first_block(blocks: &[[u8; 16]]) -> Option<usize>
    ensures { result ≡ position (λ block. nat_lt (prefix_len is_plain block) 16) blocks.now }
{
    blocks.iter().position(|block| plain_front(block) < 16)
}

// The first CR or LF of some bytes. A loop over places, so that where it begins is a number.
fn first_ending(bytes: &[u8]) -> Option<usize>
    ensures { result ≡ position ends_line_lem bytes.now }
{
    for i in 0..bytes.len() {
        if ends_line(bytes[i]) {
            return Some(i);
        }
    }
    None
}

fn ends_line(byte: u8) -> bool
    ensures { result ≡ ends_line_lem byte }
{
    byte == CR || byte == LF
}

// Passes over blocks of 256 bytes that hold neither CR nor LF.
fn skip_blocks(text: &[u8], from: usize) -> usize
    requires { from ≤ length text.now }
    ensures within { result ≤ length text.now }
    ensures passed { next_ending_lem text.now result ≡ next_ending_lem text.now from }
{
    let (blocks, _) = text[from..].as_chunks::<256>();
    from + 256 * clear_blocks(blocks)
}

// How many of some blocks are clear before the first that is not.
fn clear_blocks(blocks: &[[u8; 256]]) -> usize
    ensures { result ≡ prefix_len (fold (λ clear byte. clear && is_far byte) true) blocks.now }
{
    blocks.iter().take_while(|block| is_clear(block)).count()
}

// Whether no byte of a block is CR or LF, or VT or FF, which stand between the two.
fn is_clear(block: &[u8; 256]) -> bool
    ensures { result ≡ fold (λ clear byte. clear && is_far byte) true block.now }
{
    block.iter().fold(
        true,
        |clear, byte| clear & (byte.wrapping_sub(LF) > CR - LF),
    )
}

// How many bytes of a block stand before its first CR or LF.
fn plain_front(block: &[u8; 16]) -> usize
    ensures { result ≡ prefix_len is_plain block.now }
{
    let endings = endings_mask(block);
    if endings == 0 {
        16
    } else {
        endings.trailing_zeros() as usize
    }
}

// Bit k is set where byte k is CR or LF.
fn endings_mask(block: &[u8; 16]) -> u64
    ensures { result ≡ mask_l (map ends_line_lem block.now) }
{
    let bytes = u8x16::from_array(*block);
    (bytes.simd_eq(u8x16::splat(CR)) | bytes.simd_eq(u8x16::splat(LF))).to_bitmask()
}
