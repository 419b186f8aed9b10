// A run, a settled run, and what is given with a run. They stand in a file of their own, since the definitions of specs/
// name them.
use checked::CheckedBook;
use machine::state::{Around, End, Hand};
use std::marker::PhantomData;

// How steps are counted.
pub type Steps = u32;

// A run of a book, but for its rows and its store, which the caller keeps: what is in hand, the current object and
// parameter, the steps worked since begin, how it stands, and for how many row places it was begun.
// It is moved on, never copied.
#[derive(Drop)]
pub struct Run {
    pub(crate) hand: Hand,
    pub(crate) around: Around,
    pub(crate) steps: Steps,
    pub(crate) end: End,
    pub(crate) places: usize,
}

// A run whose use has ended.
#[derive(Drop)]
pub struct SettledRun(pub(crate) Run);

// What is given with a run and never changes: its book, the day's readings and, as a type, the number rule. Rows and store
// change and are lent each by itself, so they stay parameters of their own.
#[derive(Drop)]
pub struct Given<'a, N> {
    pub(crate) book: &'a CheckedBook<'a>,
    pub(crate) readings: &'a [i32],
    pub(crate) rule: PhantomData<N>,
}
