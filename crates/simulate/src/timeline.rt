use arrayvec::ArrayVec;
use board::run::Answer;

mod rules;

// The answers of the first 64 steps of a run.
#[derive(Drop)]
pub(crate) struct Timeline {
    answers: ArrayVec<Answer, 64>,
}
