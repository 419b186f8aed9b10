// The listing of a book: what is in a file and its type, or the exact reason why it is no book or has no type.
#![tactic(auto)]

ghost use Rattle.std.specs.Prelude.{IfOk, string_bytes};
ghost use Rattle.judge.specs.Answer.{Answers};

use std::alloc::{AllocError, Global};

mod verdict;

use verdict::write_verdict;

// The answer to an input: a refusal; or the number of readings, the listing of the book, and what checking says of it. It
// fails only for want of memory.
pub fn answer(alloc: Global, input: &[u8]) -> Result<String, AllocError>
    ensures { IfOk result (λ out. Answers input.now (string_bytes out)) }
{
    match listing::read(input) {
        Err(refusal) => format!(in alloc; "{refusal}\n"),
        Ok(day) => {
            let mut out = day.to_string(alloc)?;
            write_verdict(&mut out, day.book)?;
            Ok(out)
        }
    }
}
