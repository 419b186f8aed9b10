// What can be asked of a run.
ghost use Rattle.engine.specs.Telling.{Questions};

use crate::base::{Run, SettledRun, Steps};

// How a run stands: the steps worked since begin, the number of its end (1 while it has none), and the end's node (0
// below end 31). Numbers and not the `End`, since that is how a run is told to whoever asks.
#[derive(Clone, Copy, PartialEq, Eq, Debug)]
pub struct Told {
    pub steps: Steps,
    pub end: u16,
    pub node: u16,
}

impl Run {
    // How the run stands.
    pub fn question(&self) -> Told
        ensures { Questions self.now result }
    {
        Told {
            steps: self.steps,
            end: self.end.number(),
            node: self.end.node().unwrap_or(0),
        }
    }
}

impl SettledRun {
    // How the run stood when it was settled.
    pub fn question(&self) -> Told
        ensures { Questions self.now.0 result }
    {
        self.0.question()
    }
}
