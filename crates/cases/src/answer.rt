// What is stored of a call: 0 and its result, or the number and the place of its refusal.
ghost use Rattle.std.specs.Prelude.{◌≡◌, ◌<◌, IsErrAnd};

#[derive(Clone, Copy, PartialEq, Eq, Debug)]
pub struct Refused {
    pub number: u64,
    pub place: u64,
}

pub type Answer = Result<u64, Refused>;

pub fn stored_answer(number: u64, value: u64) -> Answer
    ensures given { number ≡ 0 → result ≡ Ok value }
    ensures refused { 0 < number → IsErrAnd result (λ e. (e.number ≡ number) × (e.place ≡ value)) }
{
    match number {
        0 => Ok(value),
        _ => Err(Refused {
            number,
            place: value,
        }),
    }
}
