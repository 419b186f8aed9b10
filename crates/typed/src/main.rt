// Checks each book of a table. It prints the right answers to a case where the last line of ours is one of them, and else
// that line: see tools/typed.py.
#![tactic(auto)]

ghost use Rattle.std.specs.Prelude.{length};
ghost use Rattle.std.specs.Iterator.{at_most};

use std::alloc::Global;
use std::io::{Read, Write};
use table::first_item;

// A case of the table: its label, the answers that are right, a line each, and its input.
#[derive(Clone, Copy)]
struct Case<'a> {
    label: &'a [u8],
    answers: &'a [u8],
    input: &'a [u8],
}

// The cases of a table, three items each, up to the first that is cut.
#[derive(Drop)]
struct Cases<'a> {
    table: &'a [u8],
}

impl<'a> Iterator for Cases<'a> {
    type Item = Case<'a>;

    ghost remaining = { λ cases. at_most (length cases.table.now) };

    fn next(&mut self) -> Option<Case<'a>> {
        let label = first_item(self.table)?;
        let answers = first_item(label.rest)?;
        let input = first_item(answers.rest)?;
        self.table = input.rest;
        Some(Case {
            label: label.bytes,
            answers: answers.bytes,
            input: input.bytes,
        })
    }
}

// Whether a line, with its end, is one of some lines.
fn is_among(line: &str, lines: &[u8]) -> bool {
    lines
        .split_inclusive(|b| *b == b'\n')
        .any(|one| one == line.as_bytes())
}

// Writes a case's label, and then the right answers, or the last line of ours where it is none of them.
// The output is bytes, since a label need not be text.
fn show(alloc: Global, out: &mut Vec<u8>, case: &Case) -> anyhow::Result<()> {
    out.extend_from_slice(case.label)?;
    out.extend_from_slice(b":\n")?;
    let answer = judge::answer(alloc, case.input)?;
    let line = answer.split_inclusive('\n').last().unwrap_or("");
    if is_among(line, case.answers) {
        out.extend_from_slice(case.answers)?;
    } else {
        out.extend_from_slice(line.as_bytes())?;
    }
    Ok(())
}

// The lines of torn's main too: reading and printing have no contract that a shared function could state.
fn main(rt: HostRuntime) -> anyhow::Result<()> {
    let mut table = Vec::new(rt.alloc());
    rt.stdin().read_to_end(&mut table)?;
    let mut out = Vec::new(rt.alloc());
    let cases = Cases { table: &table };
    for case in cases {
        show(rt.alloc(), &mut out, &case)?;
    }
    rt.stdout().write_all(&out)?;
    Ok(())
}
