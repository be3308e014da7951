// Whether goals were answered the same.
use build_core::Answered;
use goal_types::GoalAnswer;

fn same_answer(a: &GoalAnswer, b: &GoalAnswer) -> bool {
    match (a, b) {
        (GoalAnswer::Done, GoalAnswer::Done) => true,
        (GoalAnswer::Produced(x), GoalAnswer::Produced(y)) => x == y,
        (GoalAnswer::Failed(x), GoalAnswer::Failed(y)) => x == y,
        _ => false,
    }
}

// Whether an answer stands among these.
fn stands(one: &Answered, answers: &[Answered]) -> bool {
    for other in answers {
        if other.module == one.module && other.goal == one.goal {
            return same_answer(&one.answer, &other.answer);
        }
    }
    false
}

/// Whether each of the answers stands among the others.
pub fn all_stand(answers: &[Answered], others: &[Answered]) -> bool {
    for one in answers {
        if !stands(one, others) {
            return false;
        }
    }
    true
}
