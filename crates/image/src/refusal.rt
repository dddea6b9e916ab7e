// Refusals have numbers: document 01's.
ghost use Rattle.std.specs.Prelude.{◌≡◌, ℕ};
ghost use Rattle.image.specs.Answers.{answered, answer_number};

// A kind of refusals, each of which has a number.
pub trait Refusal {
    ghost number_of: { Self → ℕ };

    // Gives the number of a refusal.
    fn number(self) -> u32
        ensures { result ≡ number_of self };
}

// Gives the number of an answer's refusal, and 0 where it is accepted.
pub fn answer_number<T: Drop, E: Refusal>(answer: Result<T, E>) -> u32
    ensures { result ≡ answer_number (answered E.number_of answer) }
{
    match answer {
        Ok(_) => 0,
        Err(error) => error.number(),
    }
}
