// Why a file is not accepted.
ghost use Rattle.std.specs.Prelude.{◌≡◌};
ghost use Rattle.checked.specs.declared.rejection.Rejection.TheVariants.{File, Typing};
ghost use Rattle.checked.specs.Rejecting.{rejection};

use book::fault::{Fault, Refusal};
use checker::fault::TypeFault;

// Why a file is not accepted: it is no book, or the book has no type.
#[derive(Clone, Copy, PartialEq, Eq, Debug)]
pub enum Rejection {
    File(Fault),
    Typing(TypeFault),
}

impl From<Fault> for Rejection {
    ghost from_gives = { λ fault r. r ≡ File fault };

    fn from(fault: Fault) -> Rejection {
        Self::File(fault)
    }
}

impl From<TypeFault> for Rejection {
    ghost from_gives = { λ fault r. r ≡ Typing fault };

    fn from(fault: TypeFault) -> Rejection {
        Self::Typing(fault)
    }
}

impl From<Rejection> for Refusal {
    ghost from_gives = { λ rejected r. r ≡ rejection rejected };

    // The number and the place under which the file is refused.
    fn from(rejected: Rejection) -> Refusal {
        match rejected {
            Rejection::File(fault) => fault.into(),
            Rejection::Typing(fault) => fault.into(),
        }
    }
}
