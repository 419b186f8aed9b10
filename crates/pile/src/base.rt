// The pile's type, in a file of its own, since the definitions of specs/ name it.
ghost use Rattle.std.specs.Prelude.{◌≤◌, length};

// A stretch of the caller's places, of which the first `height` hold the items. It is no `Vec`, since a run takes no heap.
#[derive(Drop)]
pub struct Pile<'a, T> {
    pub(crate) places: &'a mut [T],
    pub(crate) height: usize,
    pub ghost within: { height ≤ length places.now },
}
