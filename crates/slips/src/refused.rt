// Why there is no slip.
ghost use Rattle.std.specs.Prelude.{◌≡◌};
ghost use Rattle.slips.specs.Answer.{refusal};

use book::fault::Refusal;

#[derive(Clone, Copy, PartialEq, Eq, Debug)]
pub enum SlipRefused {
    // fewer found places than the store has records
    FewPlaces,
    // the run is finished, and its value or a record reached from it does not fit
    Misfit,
    // the output is shorter than the slip
    ShortOutput,
}

impl From<SlipRefused> for Refusal {
    ghost from_gives = { λ refused r. r ≡ refusal refused };

    // The number and the place under which the slip is refused.
    fn from(refused: SlipRefused) -> Refusal {
        let number = match refused {
            SlipRefused::FewPlaces => 25,
            SlipRefused::Misfit => 23,
            SlipRefused::ShortOutput => 26,
        };
        Refusal { number, place: 0 }
    }
}
