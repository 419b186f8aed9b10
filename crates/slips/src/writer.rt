// Writing pieces of text. A piece is written where there is room for it, and counted always: so a text is measured by
// writing it to no bytes at all.
ghost use Rattle.std.specs.Prelude.{◌≡◌};

use itoa::{Buffer, Integer};

// Bytes of the caller's that text is written to, piece after piece. A `std::fmt::Write` does not stand in its place: its
// contract does not say when a write succeeds, and a slip that is not refused is exactly its text.
#[derive(Drop)]
pub(crate) struct Writer<'a> {
    pub(crate) out: &'a mut [u8],
    // the bytes counted so far, whether they were written or not; the greatest usize once there are more
    pub(crate) at: usize,
}

impl Writer<'_> {
    ghost use Rattle.slips.specs.Writing.{Puts};

    pub(crate) fn put(&mut self, bytes: &[u8])
        ensures { Puts self.old self.new bytes.now }
    {
        let start = self.at;
        self.at = start.saturating_add(bytes.len());
        if self.at <= self.out.len() {
            self.out[start..self.at].copy_from_slice(bytes);
        }
    }

    // Writes an integer in decimal.
    pub(crate) fn put_decimal<I: Integer>(&mut self, n: I)
        ensures { Puts self.old self.new (I.text n) }
    {
        let mut digits = Buffer::new();
        self.put(digits.format(n).as_bytes());
    }
}
