// Decoding a read book.
ghost use Rattle.std.specs.Prelude.{◌≡◌, ◌+◌, ◌≤◌};
ghost use Rattle.book.specs.Books.{bytes_of};
ghost use Rattle.cool.specs.View.{root_of};
ghost use Rattle.checked.specs.Tables.{FilledBy, decoded_method};
ghost use Rattle.checked.specs.Checked.{decoded_bytes};

use crate::base::Decoded;
use crate::table::Method;
use arrayvec::ArrayVec;
use book::ReadBook;
use book::entry::Strip;

// The root of a strip.
fn root_of(strip: Strip) -> u16
    requires { strip.first + strip.nodes ≤ 4000 }
    ensures { result ≡ root_of strip }
{
    (strip.first + usize::from(strip.nodes)).saturating_sub(1) as u16
}

// A method, with the roots of its strips.
fn method_at(book: &ReadBook, m: usize) -> Option<Method>
    ensures { result ≡ decoded_method (bytes_of book.now) m }
{
    let method = book.method(m)?;
    Some(Method {
        name: method.name,
        takes: method.parameter,
        gives: method.result,
        body: root_of(method.command),
        result: root_of(method.returned),
    })
}

// The entries that `read` gives, from the first on, up to one that is not there or as far as the table reaches.
fn table_of<T: Copy + Default, F: Fn(usize) -> Option<T>, const N: usize>(read: F) -> ArrayVec<T, N>
    requires { F.IsAlwaysCallable read }
    ensures { FilledBy (F.post read) N result.items }
{
    let mut table = ArrayVec::new();
    // By number, as entries are read; to collect into an `ArrayVec` takes an allocator, and checking has none.
    for i in 0..N {
        match read(i) {
            Some(entry) => table.push(entry),
            None => return table,
        }
    }
    table
}

// A read book with its entries decoded.
pub(crate) fn decode<'a>(book: ReadBook<'a>) -> Decoded<'a>
    ensures { decoded_bytes result ≡ bytes_of book.entry }
{
    let classes = table_of(|i| book.class(i));
    let fields = table_of(|i| book.field(i));
    let methods = table_of(|i| method_at(&book, i));
    let nodes = table_of(|i| book.node(i));
    let root = root_of(book.top());
    Decoded {
        book,
        classes,
        fields,
        methods,
        nodes,
        root,
    }
}
