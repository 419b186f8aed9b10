// Where a strip stands.
use book::node::Type;

// At the top, or in a method of a class, with its parameter's type.
#[derive(Clone, Copy)]
pub enum Place {
    Top,
    In { class: u16, parameter: Type },
}
