// The word that the question of a case goes by, after one space. What each stands for: specs/.
#![tactic(auto)]

ghost use Rattle.case_words.specs.Words.{Goes, asked_by};
ghost use Rattle.std.specs.Prelude.{◌≡◌};

// What a case asks: of an image its hyperperiod or refusal, points, a listing or ages; or directly the points of two
// periods.
#[derive(Clone, Copy)]
pub enum Question {
    Image,
    Points,
    Listing,
    Ages,
    Directly,
}

// The question that a part of a line asks; none where it is no question's word.
pub fn question_of(part: &[u8]) -> Option<Question>
    ensures { Goes result part.now }
{
    match part {
        b" image" => Some(Question::Image),
        b" points" => Some(Question::Points),
        b" listing" => Some(Question::Listing),
        b" ages" => Some(Question::Ages),
        b" directly" => Some(Question::Directly),
        _ => None,
    }
}

// How many numbers a question has.
pub fn asked_by(question: Question) -> u32
    ensures { result ≡ asked_by question }
{
    match question {
        Question::Image => 0,
        Question::Points => 3,
        Question::Listing => 2,
        Question::Ages => 1,
        Question::Directly => 3,
    }
}
