// What a program is given: a count, that many readings, and a book.
#![tactic(auto)]

ghost use Rattle.std.specs.Prelude.{◌≡◌, ◌<◌, true, false, map, MatchOption};
ghost use Rattle.std.specs.List.{range_with_len};
ghost use Rattle.input.specs.Day.{reading_count, wrong_input, book_bytes, reading};

use book::{signed_number, word_at};
use std::array;

// A day's input, in its parts.
#[derive(Clone, Copy)]
pub struct Input<'a> {
    // how many readings there are
    pub readings: u16,
    // the bytes of the book
    pub book: &'a [u8],
}

// The parts of an input; none where it is under 2 bytes, its count above 4,096, or its readings cut.
pub fn split<'a>(bytes: &'a [u8]) -> Option<Input<'a>>
    ensures { MatchOption result (wrong_input bytes.now ≡ true)
        (λ i. (wrong_input bytes.now ≡ false) × (i.readings ≡ reading_count bytes.now) × (i.book.now ≡ book_bytes bytes.now)) }
{
    let [low, high, ..] = bytes else {
        return None;
    };
    let readings = u16::from_le_bytes([*low, *high]);
    let end = 2 + 4 * usize::from(readings);
    if readings > 4096 || bytes.len() < end {
        return None;
    }
    let book = &bytes[end..];
    Some(Input { readings, book })
}

#[tactic(auto, unfolding(book::specs::Layout::word))]
fn reading_at(bytes: &[u8], i: usize) -> i32
    requires { i < 4096 }
    ensures { result ≡ reading bytes.now i }
{
    signed_number(word_at(bytes, 2 + 4 * i), word_at(bytes, 4 + 4 * i))
}

// The numbers where an input's readings stand, or would stand: only the first are readings, as many as `split` tells. All
// places are promised, so they are an array with the count beside it.
pub fn reading_places(bytes: &[u8]) -> [i32; 4096]
    ensures { result ≡ map (reading bytes.now) (range_with_len 0 4096) }
{
    array::from_fn(|i| reading_at(bytes, i))
}
