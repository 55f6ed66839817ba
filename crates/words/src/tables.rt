// Answers of Read and Write in words. The definitions are in crate `words_spec`.
ghost use Rattle.table.specs.Answers.{answer_of};
ghost use Rattle.words_spec.specs.Tables.{TableTold};

use table::Refusal;

// The number to return; the count or the place goes into value.
pub fn tell_table(answer: Result<usize, Refusal>, value: &mut u64) -> u32
    ensures { TableTold (answer_of answer) result value.new }
{
    match answer {
        Ok(n) => {
            *value = n as u64;
            0
        }
        Err(r) => {
            *value = r.place as u64;
            r.number as u32
        }
    }
}
