// The types of methods.
ghost use Rattle.std.specs.Prelude.{◌≡◌, ℕ, ◌<◌, Some, Ok, Err, MatchResult};
ghost use Rattle.std.specs.List.{slice_get};
ghost use Rattle.checked.specs.declared.table.Method.{Method as MethodEntry};
ghost use Rattle.checked.specs.Methods.{method_in, MethodsTyped, UntypedMethod};
ghost use Rattle.checked.specs.Checked.{decoded_book, meth};

use crate::base::Decoded;
use crate::table::Method;
use crate::types::{Typing, need};
use checker::fault::TypeFault;
use checker::place::Place;

// A method of class `c`: its command, and its returned expression against its result type.
#[tactic(auto, unfolding(crate::specs::Typing::type_at, crate::specs::Typing::command_at))]
fn check_method(book: &Decoded, c: u16, method: Method) -> Result<(), TypeFault>
    ensures { result ≡ method_in (decoded_book book.now) c (meth method) }
{
    let typing = Typing {
        book,
        place: Place::In {
            class: c,
            parameter: method.takes,
        },
    };
    typing.check_command(method.body)?;
    let found = typing.type_of(method.result)?;
    need(
        found,
        method.gives,
        TypeFault::Returned(usize::from(method.result)),
    )
}

// Some methods of class `c`.
fn check_methods(book: &Decoded, c: u16, methods: &[Method]) -> Result<(), TypeFault>
    ensures { MatchResult result
        (λ _. (i : ℕ) (m : MethodEntry) → slice_get methods.now i ≡ Some m → method_in (decoded_book book.now) c (meth m) ≡ Ok tt)
        (λ e. (i : ℕ) × (m : MethodEntry) × (slice_get methods.now i ≡ Some m) × (method_in (decoded_book book.now) c (meth m) ≡ Err e)) }
{
    for method in methods {
        check_method(book, c, *method)?;
    }
    Ok(())
}

// All methods of class `c`.
fn check_class(book: &Decoded, c: u16) -> Result<(), TypeFault>
    ensures { MatchResult result
        (λ _. MethodsTyped (decoded_book book.now) c)
        (λ e. UntypedMethod (decoded_book book.now) c e) }
{
    match book.class(c) {
        Some(class) => check_methods(book, c, book.methods_of(class)),
        None => Ok(()),
    }
}

// All methods of all classes.
pub(crate) fn check_classes(book: &Decoded) -> Result<(), TypeFault>
    ensures { MatchResult result
        (λ _. (c : ℕ) → c < (decoded_book book.now).classes → MethodsTyped (decoded_book book.now) c)
        (λ e. (c : ℕ) × UntypedMethod (decoded_book book.now) c e) }
{
    for c in 0..book.class_count() {
        check_class(book, c)?;
    }
    Ok(())
}
