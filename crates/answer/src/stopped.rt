// Why a run came to no slip.
ghost use Rattle.std.specs.Prelude.{◌≡◌};

use book::fault::Refusal;
use engine::refused::Refused;
use slips::SlipRefused;

#[derive(Clone, Copy, PartialEq, Eq, Debug)]
pub enum Stopped {
    // begin or advance was refused
    Call(Refused),
    // the run has no slip, or its output is too short
    Slip(SlipRefused),
}

impl From<Refused> for Stopped {
    ghost use Rattle.answer.specs.declared.stopped.Stopped.TheVariants.{Call};

    ghost from_gives = { λ refused stopped. stopped ≡ Call refused };

    fn from(refused: Refused) -> Stopped {
        Stopped::Call(refused)
    }
}

impl From<SlipRefused> for Stopped {
    ghost use Rattle.answer.specs.declared.stopped.Stopped.TheVariants.{Slip};

    ghost from_gives = { λ refused stopped. stopped ≡ Slip refused };

    fn from(refused: SlipRefused) -> Stopped {
        Stopped::Slip(refused)
    }
}

// The number and the place under which it is told.
impl From<Stopped> for Refusal {
    ghost use Rattle.answer.specs.Worked.{refusal_of};

    ghost from_gives = { λ stopped refusal. refusal ≡ refusal_of stopped };

    fn from(stopped: Stopped) -> Refusal {
        match stopped {
            Stopped::Call(call) => call.into(),
            Stopped::Slip(slip) => slip.into(),
        }
    }
}
