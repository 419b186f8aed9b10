// The type of a read book. It stands in a file of its own, so that its meaning can be imported where its methods are.
ghost use Rattle.book.specs.Faults.{Clear};

// The bytes of a file that is clear of all faults, as `clear` says. Only reading makes one; it is moved on, never copied.
#[derive(Drop)]
pub struct ReadBook<'a> {
    pub(crate) bytes: &'a [u8],

    // No fault of the file is there.
    pub ghost clear: { Clear bytes.now },
}
