// A rule book: the file's numbers, entries, nodes and names, and the first fault of a file that is none.
#![tactic(auto)]

ghost use Rattle.std.specs.Prelude.{◌≡◌, MatchOption, MatchResult};
ghost use Rattle.std.specs.Option.{option_map};
ghost use Rattle.book.specs.Layout.{counts_of, class_at, field_at};
ghost use Rattle.book.specs.Strips.{method_at, node_at, top_strip};
ghost use Rattle.book.specs.Names.{name_at};
ghost use Rattle.book.specs.Faults.{First, Clear, FaultsDecide};
ghost use Rattle.book.specs.Books.{bytes_of};

mod base;
pub mod entry;
pub mod fault;
mod faults;
mod kinds;
mod layout;
mod member;
mod names;
pub mod node;
mod nodes;

pub use base::ReadBook;
use entry::{Class, Counts, Field, Method, Strip};
use fault::Fault;
pub use kinds::signed_number;
pub use layout::word_at;
use node::Node;

// The book that a file is, or the first fault why it is none. That every file is clear of faults or has one first fault
// stands beside it, as a law.
#[tactic(auto, using(crate::proofs::Ranks::free_all))]
pub fn read<'a>(bytes: &'a [u8]) -> Result<ReadBook<'a>, Fault>
    ensures answer { MatchResult result
        (λ b. (bytes_of b ≡ bytes.now) × Clear bytes.now)
        (λ f. First bytes.now f) }
    ensures law { FaultsDecide }
{
    faults::check_version(bytes)?;
    faults::check_limits(bytes)?;
    faults::check_offsets(bytes)?;
    faults::check_names(bytes)?;
    faults::check_totals(bytes)?;
    faults::check_entries(bytes)?;
    nodes::check_nodes(bytes)?;
    Ok(ReadBook { bytes })
}

impl<'a> ReadBook<'a> {
    // How many of each there are.
    pub fn counts(&self) -> Counts
        ensures { result ≡ counts_of (bytes_of self.now) }
    {
        layout::counts_of(self.bytes)
    }

    // Class `i`, if there is one.
    pub fn class(&self, i: usize) -> Option<Class>
        ensures { result ≡ class_at (bytes_of self.now) i }
    {
        layout::class_at(self.bytes, i)
    }

    // Field `j`, counted through all classes.
    pub fn field(&self, j: usize) -> Option<Field>
        ensures { result ≡ field_at (bytes_of self.now) j }
    {
        layout::field_at(self.bytes, j)
    }

    // Method `m`, counted through all classes.
    pub fn method(&self, m: usize) -> Option<Method>
        ensures { result ≡ method_at (bytes_of self.now) m }
    {
        layout::method_at(self.bytes, m)
    }

    // The strip of the top-level expression.
    pub fn top(&self) -> Strip
        ensures { result ≡ top_strip (bytes_of self.now) }
    {
        layout::top_strip(self.bytes)
    }

    // Node `k`, counted through all strips.
    pub fn node(&self, k: usize) -> Option<Node>
        ensures { result ≡ node_at (bytes_of self.now) k }
    {
        let k = layout::below(k, self.counts().nodes)?;
        Node::try_from(layout::raw_node(self.bytes, k)).ok()
    }

    // Name `n`, as a part of the file's bytes.
    pub fn name(&self, n: usize) -> Option<&'a str>
        ensures { option_map (λ x. x.now) result ≡ name_at (bytes_of self.now) n }
    {
        names::name_at(self.bytes, n)
    }
}
