// What loading a pair and then playing it answers, whatever was asked.
ghost use Rattle.std.specs.Prelude.{◌≡◌};

// A refusal's number, place and file, and no value; or zeros and the value.
#[derive(Clone, Copy)]
pub struct Played<T> {
    pub refusal: usize,
    pub place: usize,
    pub file: usize,
    pub value: Option<T>,
}

impl<T> Played<T> {
    ghost use Rattle.pair_played.specs.Answers.{refused, answered};

    // The pair is refused.
    pub fn refused(number: usize, place: usize, file: usize) -> Played<T>
        ensures { result ≡ refused number place file }
    {
        Played {
            refusal: number,
            place,
            file,
            value: None,
        }
    }

    // What the pair's tables answer; where they answer nothing, 21.
    pub fn answered(value: Option<T>) -> Played<T>
        ensures { result ≡ answered value }
    {
        Played {
            refusal: if value.is_some() { 0 } else { 21 },
            place: 0,
            file: 0,
            value,
        }
    }
}
