// The numbers of a list, place by place.
ghost use Rattle.std.specs.Prelude.{MatchResult};
ghost use Rattle.table.specs.Reading.{NumberAt, NoneAt};

use crate::answer::Refusal;

// The number at a place; where the list ends, refusal 3 at its end.
pub fn number_at(list: &[u16], at: usize) -> Result<u16, Refusal>
    ensures { MatchResult result (λ n. NumberAt list.now at n) (λ r. NoneAt list.now at r) }
{
    match list.get(at) {
        Some(&n) => Ok(n),
        None => Err(Refusal {
            number: 3,
            place: list.len(),
        }),
    }
}
