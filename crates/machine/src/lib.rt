// The step machine: what it holds, in code; its steps as definitions, in specs/; and its laws, each held by a function.
#![tactic(auto)]

ghost use Rattle.std.specs.Prelude.{ℕ, ◌≤◌};
ghost use Rattle.cool.specs.Syntax.{Ty, Expr, CE};
ghost use Rattle.cool.specs.Says.{Accepted};
ghost use Rattle.machine.specs.Machine.{Given};
ghost use Rattle.machine.specs.Specimens.{Specimens};
ghost use Rattle.machine.specs.Table.{Tabled};
ghost use Rattle.machine.specs.Laws.{StaysFitting, FinishedIsDerived, DerivedIsReached, RunsAlike, OneOfThree};

pub mod state;

// An accepted book is worked from a state that fits, through states that fit: no step is a misfit.
pub fn states_stay_fitting()
    ensures { (G : Given) (ce : CE) (e : Expr) (u : Ty) → Accepted G.book ce e u → StaysFitting G }
{}

// What finishes is derived by the evaluation rules.
pub fn what_finishes_is_derived()
    ensures { (G : Given) (ce : CE) (e : Expr) (u : Ty) → Accepted G.book ce e u → FinishedIsDerived G ce e }
{}

// What the evaluation rules derive is reached, unless a limit stops the run.
pub fn what_is_derived_is_reached()
    ensures { (G : Given) (ce : CE) (e : Expr) (u : Ty) → Accepted G.book ce e u → DerivedIsReached G ce e }
{}

// Runs begun alike stay alike, up to the naming of handles.
pub fn runs_stay_alike()
    ensures { (G : Given) (r q : ℕ) → RunsAlike G r q r q }
{}

// A run over a store of at most 4,096 records is finished, or ended, or has a further step: exactly one.
pub fn runs_stand_in_one_of_three_ways()
    ensures { (G : Given) (r q : ℕ) (ce : CE) (e : Expr) (u : Ty) → Accepted G.book ce e u → r ≤ 4096 → OneOfThree G r q u }
{}

// The worked specimens are what the step rules make of them: a difference of literals in 5 steps, `new Tide().set(412)` in
// 13, a reading that is not there in 3, a call on null in 12, a row that has no place in 8, a new record in 1.
pub fn specimens_are_worked()
    ensures { Specimens 5 13 3 12 8 1 }
{}

// Steps of every kind and stage, and misfits, come out as tabled; the ends are 31 for a null target, 32 for no reading, 33
// for a number beyond the ends, 34 for no room and 35 for no place.
pub fn steps_are_as_tabled()
    ensures { Tabled 31 32 33 34 35 }
{}
