// The promise over every list of calls.
#![tactic(auto)]

ghost use Rattle.promises.specs.Promises.{EveryListOfCalls};

// After every list of calls, the promises hold.
pub fn promises_hold()
    ensures { EveryListOfCalls }
{}
