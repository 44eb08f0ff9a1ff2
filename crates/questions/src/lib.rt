// Questions that are asked in turn: the first one that gets a no is the answer.
#![tactic(auto)]

pub mod failures;
pub mod refusals;

ghost use Rattle.std.specs.Prelude.{◌≡◌, [], ◌∷◌};
ghost use Rattle.questions.specs.Questions.{answered, first_no};

// Asks one question, and refuses where it gets a no. Calls with `?` one after the other ask in turn:
// after a no the later questions are not even worked out.
pub fn ask<R: Drop>(holds: bool, refusal: R) -> Result<(), R>
    ensures { result ≡ answered (first_no ((holds, refusal) ∷ [])) tt }
{
    if holds { Ok(()) } else { Err(refusal) }
}

// Asks each question of a list, a test beside the refusal that its no stands for: the first no is the answer.
pub fn ask_all<R: Copy>(questions: &[(bool, R)]) -> Result<(), R>
    ensures { result ≡ answered (first_no questions.now) tt }
{
    for (holds, refusal) in questions {
        ask(*holds, *refusal)?;
    }
    Ok(())
}
