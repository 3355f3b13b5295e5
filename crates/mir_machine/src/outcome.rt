use mir_meaning::datum::Datum;
use mir_syntax::{List, Name, Number};

/// How a run stands: it goes on, or it has ended by a return, by an abort with a text and the integers shown in it, or since no answer
/// was left; or nothing says how it goes on.
#[derive(Drop)]
pub enum Outcome {
    Going,
    Returned(Datum),
    Aborted(Name, List<Number>),
    NoAnswer,
    Undefined,
}
