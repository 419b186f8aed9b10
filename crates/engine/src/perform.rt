// Moves carried out on rows and store.
ghost use Rattle.std.specs.Prelude.{◌≡◌, List, ◌∷◌, Some};
ghost use Rattle.pile.specs.Pile.{Kept};
ghost use Rattle.store.specs.Meaning.{store};
ghost use Rattle.machine.specs.declared.state.Row.{Row as Waiting};
ghost use Rattle.machine.specs.Machine.{row};
ghost use Rattle.engine.specs.Runs.{rows_of};
ghost use Rattle.engine.specs.Moves.{outcome, CarriedOut, below};

use crate::moves::{Move, Stepped};
use machine::state::{Around, Hand, Row, Stage};
use pile::Pile;
use store::ObjectStore;

fn take_off(rows: &mut Pile<Row>)
    ensures kept { Kept rows.old rows.new }
    ensures after { rows_of rows.new ≡ below (rows_of rows.old) }
{
    let _ = rows.pop();
}

// The top row comes to a stage.
fn stay(stage: Stage, top: Row, rows: &mut Pile<Row>)
    ensures kept { Kept rows.old rows.new }
    ensures after { (ρ : List Waiting) → rows_of rows.old ≡ top ∷ ρ → rows_of rows.new ≡ row top.node stage ∷ ρ }
{
    let _ = rows.replace_top(Row {
        node: top.node,
        stage,
    });
}

impl Move {
    // Carries the move out, where `top` is the top row; none, and nothing changes, where a cell to be written is not there.
    pub(crate) fn perform<S: ObjectStore>(
        self,
        top: Row,
        around: Around,
        rows: &mut Pile<Row>,
        objects: &mut S,
    ) -> Option<Stepped>
        ensures kept { Kept rows.old rows.new }
        ensures does { (ρ : List Waiting) → rows_of rows.old ≡ top ∷ ρ → CarriedOut (outcome (Some self) around top ρ (store (S.ObjectStore.means objects.old))) (top ∷ ρ) (store (S.ObjectStore.means objects.old)) result (rows_of rows.new) (store (S.ObjectStore.means objects.new)) }
    {
        match self {
            Move::TakeOff(hand) => {
                take_off(rows);
                Some(Stepped::Next(hand, around))
            }
            Move::Stay { stage, node } => {
                stay(stage, top, rows);
                Some(Stepped::Next(Hand::Go(node), around))
            }
            Move::Enter {
                object,
                argument,
                command,
            } => {
                stay(Stage::Third(around), top, rows);
                let inside = Around {
                    object: Some(object),
                    parameter: Some(argument),
                };
                Some(Stepped::Next(Hand::Go(command), inside))
            }
            Move::Leave { kept, value } => {
                take_off(rows);
                Some(Stepped::Next(Hand::Have(value), kept))
            }
            Move::Write {
                object,
                place,
                value,
            } => {
                if !objects.put(object, place, value) {
                    return None;
                }
                take_off(rows);
                Some(Stepped::Next(Hand::Done, around))
            }
            Move::Ends(end) => Some(Stepped::Ends(end)),
        }
    }
}
