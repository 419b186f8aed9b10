// The language COOL: its syntax and rules, which book a file's bytes are, and which program a book stands for. All of it is definitions, in specs/;
// the functions below hold the laws that the definitions must meet.
#![tactic(auto)]

ghost use Rattle.std.specs.Prelude.{ℕ, List};
ghost use Rattle.book.specs.Faults.{Clear};
ghost use Rattle.cool.specs.Syntax.{Program};
ghost use Rattle.cool.specs.Program.{SameType};
ghost use Rattle.cool.specs.Book.{Book, Formed, ClassesDistinct, TypesOneToOne};
ghost use Rattle.cool.specs.View.{view};
ghost use Rattle.cool.specs.Says.{OneProgram};
ghost use Rattle.cool.specs.Accepts.{AcceptsExactly};

// A program gives rise to at most one class environment and type.
pub fn types_are_unique()
    ensures { (p : Program) → SameType p p }
{}

// The book that a file clear of all faults is: it is well formed.
pub fn clear_files_are_formed()
    ensures { (bs : List ℕ) → Clear bs → Formed (view bs) }
{}

// A file clear of all faults stands for one program, and only one.
pub fn clear_files_stand_for_one_program()
    ensures { (bs : List ℕ) → Clear bs → OneProgram (view bs) }
{}

// So does every well-formed book, whatever its bytes.
pub fn books_stand_for_one_program()
    ensures { (B : Book) → Formed B → OneProgram B }
{}

// Once class names are distinct, types by class number and types by class name are one to one.
pub fn class_names_tell_classes_apart()
    ensures { (B : Book) → ClassesDistinct B → TypesOneToOne B }
{}

// The program that a book stands for has a type exactly when names are distinct and the nodes are well typed.
pub fn well_typed_nodes_are_accepted()
    ensures { (B : Book) → Formed B → AcceptsExactly B }
{}
