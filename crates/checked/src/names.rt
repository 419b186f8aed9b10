// Entries of one kind by one name.
ghost use Rattle.std.specs.Prelude.{◌≡◌, ℕ, ◌+◌, ◌≤◌, ◌<◌, ◌^◌, ◌==◌, map, length, MatchOption};
ghost use Rattle.std.specs.List.{list_any};
ghost use Rattle.cool.specs.Accepts.{NamesDistinct};
ghost use Rattle.checker.specs.declared.fault.TypeFault.TheVariants.{Repeated};
ghost use Rattle.checked.specs.Naming.{AllDistinct, StandsEarlier, MembersDistinct};
ghost use Rattle.checked.specs.Holding.{Holds};
ghost use Rattle.checked.specs.Checked.{decoded_book};

use crate::base::Decoded;
use crate::table::Method;
use book::entry::{Class, Field};

// An entry that has a name number.
trait Named {
    ghost called: { Self → ℕ };

    fn name(&self) -> u16
        ensures { result ≡ called self.now };
}

impl Named for Class {
    ghost called = { λ k. k.name };

    fn name(&self) -> u16 {
        self.name
    }
}

impl Named for Field {
    ghost called = { λ f. f.name };

    fn name(&self) -> u16 {
        self.name
    }
}

impl Named for Method {
    ghost called = { λ m. m.name };

    fn name(&self) -> u16 {
        self.name
    }
}

// Whether one of some entries has a name.
fn is_among<T: Named>(entries: &[T], name: u16) -> bool
    ensures { result ≡ list_any (λ e. name == T.Named.called e) entries.now }
{
    entries.iter().any(|entry| name == entry.name())
}

// An entry that has the name of an earlier one.
fn repeat<T: Named>(entries: &[T]) -> Option<usize>
    ensures { MatchOption result
        (AllDistinct (map T.Named.called entries.now))
        (λ j. StandsEarlier (map T.Named.called entries.now) j) }
{
    for (j, entry) in entries.iter().enumerate() {
        if is_among(&entries[..j], entry.name()) {
            return Some(j);
        }
    }
    None
}

// The same by its number among all of the file's entries, where these stand from number `first` on.
fn repeated_from<T: Named>(first: usize, entries: &[T]) -> Option<usize>
    requires { first + length entries.now < 2 ^ 64 }
    ensures { MatchOption result
        (AllDistinct (map T.Named.called entries.now))
        (λ n. (j : ℕ) × StandsEarlier (map T.Named.called entries.now) j × (n ≡ first + j)) }
{
    let j = repeat(entries)?;
    Some(first + j)
}

// A field or a method of class `c` that has the name of an earlier one, by its entry number.
fn repeated_member(book: &Decoded, c: u16) -> Option<usize>
    ensures { MatchOption result
        (MembersDistinct (decoded_book book.now) c)
        (λ i. Holds (decoded_book book.now) (Repeated i)) }
{
    let class = book.class(c)?;
    let counts = book.book.counts();
    let all_fields = usize::from(counts.classes);
    let all_methods = all_fields + usize::from(counts.fields);
    let field = repeated_from(
        all_fields + class.first_field as usize,
        book.fields_of(class),
    );
    let method = repeated_from(
        all_methods + class.first_method as usize,
        book.methods_of(class),
    );
    field.or(method)
}

// An entry that has the name of an earlier one of its kind: a class, or a field or a method of one class.
pub(crate) fn repeated_entry(book: &Decoded) -> Option<usize>
    ensures { MatchOption result
        (NamesDistinct (decoded_book book.now))
        (λ i. Holds (decoded_book book.now) (Repeated i)) }
{
    if let Some(c) = repeat(&book.classes) {
        return Some(c);
    }
    for c in 0..book.class_count() {
        if let Some(i) = repeated_member(book, c) {
            return Some(i);
        }
    }
    None
}
