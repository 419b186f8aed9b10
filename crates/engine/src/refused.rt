// Why a call was refused: what its caller brought on.
ghost use Rattle.std.specs.Prelude.{◌≡◌};

use book::fault::Refusal;

#[derive(Clone, Copy, PartialEq, Eq, Debug)]
pub enum Refused {
    // begin on a store with records
    StoreHasRecords,
    // rows not empty at begin, not 1 to 4,096 places, or another number of places than at begin
    WrongRows,
    // no line applies to the state
    Misfit,
    // an allowance above 1,000,000, or steps and allowance above 4,000,000,000 together
    TooFar,
}

// The number and the place under which a call is refused.
impl From<Refused> for Refusal {
    ghost use Rattle.engine.specs.Refusals.{refusal};

    ghost from_gives = { λ refused given. given ≡ refusal refused };

    fn from(refused: Refused) -> Refusal {
        let number = match refused {
            Refused::StoreHasRecords => 21,
            Refused::WrongRows => 22,
            Refused::Misfit => 23,
            Refused::TooFar => 24,
        };
        Refusal { number, place: 0 }
    }
}
