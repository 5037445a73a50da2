ghost use Rattle.std.specs.Prelude.{◌≡◌};
ghost use Rattle.c_matches.specs.Answers.{only, telling, told_in};

/// What a call answers.
#[derive(Drop)]
pub struct Answer {
    /// The code.
    pub code: u32,
    /// The number that it tells beside the code, if it tells one.
    pub told: Option<u32>,
}

impl Answer {
    /// A code alone.
    pub(crate) fn only(code: u32) -> Answer
        ensures { result ≡ only code }
    {
        Answer { code, told: None }
    }

    /// A code and a number.
    pub(crate) fn telling(code: u32, told: u32) -> Answer
        ensures { result ≡ telling code told }
    {
        Answer {
            code,
            told: Some(told),
        }
    }

    /// Writes the number, where there is one, and gives the code.
    pub(crate) fn tell(self, told: &mut u32) -> u32
        ensures code { result ≡ self.code }
        ensures told { told.new ≡ told_in self told.old }
    {
        let Answer { code, told: number } = self;
        if let Some(number) = number {
            *told = number;
        }
        code
    }
}
