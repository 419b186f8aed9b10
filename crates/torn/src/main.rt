// Prints the first two lines of the answer to each input of a table of torn books: see tools/torn.py.
#![tactic(auto)]

ghost use Rattle.std.specs.Prelude.{length};
ghost use Rattle.std.specs.Iterator.{at_most};

use std::alloc::Global;
use std::io::{Read, Write};
use table::first_item;

#[derive(Clone, Copy)]
struct Case<'a> {
    label: &'a [u8],
    input: &'a [u8],
}

// The cases of a table, up to the first that is cut. A label stands behind its length in one byte, an input is an item.
#[derive(Drop)]
struct Cases<'a> {
    table: &'a [u8],
}

impl<'a> Iterator for Cases<'a> {
    type Item = Case<'a>;

    ghost remaining = { λ cases. at_most (length cases.table.now) };

    fn next(&mut self) -> Option<Case<'a>> {
        let (len, rest) = self.table.split_first()?;
        let (label, rest) = rest.split_at_checked(usize::from(*len))?;
        let input = first_item(rest)?;
        self.table = input.rest;
        Some(Case {
            label,
            input: input.bytes,
        })
    }
}

// Writes a case's label, and the first two lines of the answer to its input.
// The output is bytes, since a label need not be text.
fn show(alloc: Global, out: &mut Vec<u8>, case: &Case) -> anyhow::Result<()> {
    out.extend_from_slice(case.label)?;
    out.extend_from_slice(b":\n")?;
    let answer = listing::answer(alloc, case.input)?;
    for line in answer.split_inclusive('\n').take(2) {
        out.extend_from_slice(line.as_bytes())?;
    }
    Ok(())
}

// The lines of typed's main too: reading and printing have no contract that a shared function could state.
fn main(rt: HostRuntime) -> anyhow::Result<()> {
    let mut table = Vec::new(rt.alloc());
    rt.stdin().read_to_end(&mut table)?;
    let mut out = Vec::new(rt.alloc());
    let cases = Cases { table: &table };
    for case in cases {
        show(rt.alloc(), &mut out, &case)?;
    }
    rt.stdout().write_all(&out)?;
    Ok(())
}
