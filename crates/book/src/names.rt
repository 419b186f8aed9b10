// The names of a book, one after another in the name part.
ghost use Rattle.std.specs.Prelude.{◌≡◌, ℕ, ◌<◌, true, false, Some, None, length, MatchOption};
ghost use Rattle.std.specs.Option.{option_map};
ghost use Rattle.std.specs.Result.{result_err};
ghost use Rattle.std.specs.Iterator.{at_most};
ghost use Rattle.book.specs.Counting.{any_below, Lowest};
ghost use Rattle.book.specs.Names.{letter, letter_or_digit, letters_or_digits, spelled, cut, after_names, nth_name, name_at, same_name};
ghost use Rattle.book.specs.Faults.{wrong_name_in};

use crate::layout::{NAMES, header_at, name_bytes};

// The names of some bytes, one after another, up to the first that is faulty or cut.
#[derive(Clone, Copy)]
pub(crate) struct Names<'a> {
    pub(crate) rest: &'a [u8],
}

impl<'a> Iterator for Names<'a> {
    type Item = &'a [u8];

    ghost next_gives = { λ names result after. MatchOption result (cut names.rest.now ≡ None) (λ name. cut names.rest.now ≡ Some (name.now, after.rest.now)) };

    ghost remaining = { λ names. at_most (length names.rest.now) };

    #[tactic(auto, using(crate::proofs::Firsts::cut_shorter))]
    fn next(&mut self) -> Option<&'a [u8]> {
        let (name, rest) = take_name(self.rest)?;
        self.rest = rest;
        Some(name)
    }
}

fn is_letter(byte: u8) -> bool
    ensures { result ≡ letter byte }
{
    byte.is_ascii_alphabetic() || byte == b'_'
}

fn is_letter_or_digit(byte: u8) -> bool
    ensures { result ≡ letter_or_digit byte }
{
    is_letter(byte) || byte.is_ascii_digit()
}

fn are_letters_or_digits(bytes: &[u8]) -> bool
    ensures { result ≡ letters_or_digits bytes.now }
{
    bytes.iter().all(|byte| is_letter_or_digit(*byte))
}

fn is_spelled(bytes: &[u8]) -> bool
    ensures { result ≡ spelled bytes.now }
{
    match bytes {
        [] => false,
        [first, rest @ ..] => is_letter(*first) && are_letters_or_digits(rest),
    }
}

// The name at the front of some bytes, and the bytes after it; none where it is faulty or cut.
fn take_name<'a>(bytes: &'a [u8]) -> Option<(&'a [u8], &'a [u8])>
    ensures { MatchOption result (cut bytes.now ≡ None) (λ p. cut bytes.now ≡ Some (p.0.now, p.1.now)) }
{
    match bytes {
        [] => None,
        [len, rest @ ..] => {
            let n = usize::from(*len);
            if n > 31 || n > rest.len() {
                return None;
            }
            let (name, after) = rest.split_at(n);
            if is_spelled(name) {
                Some((name, after))
            } else {
                None
            }
        }
    }
}

// `==`, in the words of the definition, which a closure could not be tied to.
fn is_same(x: &[u8], y: &[u8]) -> bool
    ensures { result ≡ same_name (Some x.now) (Some y.now) }
{
    x == y
}

// Whether a name is among the first `n` of some bytes.
fn is_among(bytes: &[u8], n: usize, name: &[u8]) -> bool
    ensures { result ≡ any_below n (λ m. same_name (nth_name m bytes.now) (Some name.now)) }
{
    Names { rest: bytes }
        .take(n)
        .any(|earlier| is_same(earlier, name))
}

// Looks for a name among the first `count` that is faulty, cut or the same as an earlier one, or for bytes after the last.
pub(crate) fn check_names_in(bytes: &[u8], count: usize) -> Result<(), usize>
    ensures { Lowest (wrong_name_in count bytes.now) (result_err result) }
{
    let mut names = Names { rest: bytes };
    // By number, since a fault is told by that of its name, and what is left after the last is looked at.
    for n in 0..count {
        let Some(name) = names.next() else {
            return Err(n);
        };
        if is_among(bytes, n, name) {
            return Err(n);
        }
    }
    if names.rest.is_empty() {
        Ok(())
    } else {
        Err(count)
    }
}

// Name `n` of a file, if there is one.
pub(crate) fn name_at<'a>(bytes: &'a [u8], n: usize) -> Option<&'a str>
    ensures { option_map (λ x. x.now) result ≡ name_at bytes.now n }
{
    if n < usize::from(header_at(bytes, NAMES)) {
        let rest = name_bytes(bytes);
        let name = Names { rest }.nth(n)?;
        // A spelled name is ASCII: its bytes need no second look.
        Some(unsafe { str::from_utf8_unchecked(name) })
    } else {
        None
    }
}
