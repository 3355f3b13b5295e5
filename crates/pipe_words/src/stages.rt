ghost use Rattle.std.specs.Prelude.{◌≡◌, ◌↔◌, IsTrue, MatchOption};
ghost use Rattle.mir_syntax.specs.declared.stage.Stage as declared;
ghost use Rattle.pipe_words.specs.Stages.{IsStage};

use mir_syntax::Stage;

// Whether two texts are the same.
fn is_text(word: &[u8], text: &[u8]) -> bool
    ensures { IsTrue result ↔ (word.now ≡ text.now) }
{
    word == text
}

/// The stage that a word names.
#[tactic(auto, using(crate::proofs::StageWords::no_stage, crate::proofs::StageWords::is_stage))]
pub fn read_stage(word: &[u8]) -> Option<Stage>
    ensures { MatchOption result ((stage : declared.Stage) → IsStage word.now stage → ⊥) (λ stage. IsStage word.now stage) }
{
    if is_text(word, b"built") {
        Some(Stage::Built)
    } else if is_text(word, b"promoted") {
        Some(Stage::Promoted)
    } else if is_text(word, b"split") {
        Some(Stage::Split)
    } else if is_text(word, b"folded") {
        Some(Stage::Folded)
    } else if is_text(word, b"threaded") {
        Some(Stage::Threaded)
    } else if is_text(word, b"merged") {
        Some(Stage::Merged)
    } else if is_text(word, b"pruned") {
        Some(Stage::Pruned)
    } else if is_text(word, b"optimised") {
        Some(Stage::Optimised)
    } else {
        None
    }
}
