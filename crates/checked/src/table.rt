// The tables of a decoded book.
ghost use Rattle.std.specs.Prelude.{◌≡◌, take, drop};

use book::node::Type;

// A method: its name number, its types, and the root nodes of its command and of its returned expression.
#[derive(Clone, Copy, Default)]
pub struct Method {
    pub name: u16,
    pub takes: Type,
    pub gives: Type,
    pub body: u16,
    pub result: u16,
}

// The part of a table from a number on, as far as it reaches.
pub(crate) fn stretch<T>(table: &[T], first: usize, n: usize) -> &[T]
    ensures { result.now ≡ take n (drop first table.now) }
{
    let rest = table.get(first..).unwrap_or(&[]);
    rest.get(..n).unwrap_or(rest)
}
