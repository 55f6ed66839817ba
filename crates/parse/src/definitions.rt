// Reading the definitions of a table: of each the level, the number of its body, and the body.
//     read_definition, read_definitions    one; so many, one after the other
ghost use Rattle.std.specs.Prelude.{◌<◌, ◌≤◌, length};
ghost use Rattle.table_index.specs.Index.{sets_in};
ghost use Rattle.table_index.specs.Parse.{SetsReady, DefinitionsRead};
ghost use Rattle.table_index.specs.Parse.Terms.{DefinitionRead};

use crate::terms::read_term;
use table::{Refusal, Spot, TermEnd, number_at};
use table_index::layout;

// The definition at a place: its level and its body, whose number is n.
fn read_definition(
    list: &[u16],
    work: &mut [u64],
    sets: usize,
    d: usize,
    at: usize,
    n: usize,
) -> Result<TermEnd, Refusal>
    requires sets_ready { SetsReady list.now work.old sets }
    requires d_bound { (d < 32) × (at ≤ length list.now) × (n ≤ 1024) }
    ensures { DefinitionRead (sets_in list.now) list.now d n at work.old
        work.new result }
{
    let level = number_at(list, at)?;
    if 7 < level {
        return Err(Refusal {
            number: 5,
            place: at,
        });
    }
    work[layout::BODIES_AT + d] = n as u64;
    work[layout::LEVELS_AT + d] = level as u64;
    read_term(
        list,
        work,
        sets,
        at + 1,
        n,
        32,
        Spot {
            prefixes: 0,
            parallel: 0,
            entry: 1,
            own: d as u64,
        },
    )
}

// So many definitions.
pub fn read_definitions(
    list: &[u16],
    work: &mut [u64],
    sets: usize,
    count: usize,
    at: usize,
) -> Result<TermEnd, Refusal>
    requires sets_ready { SetsReady list.now work.old sets }
    requires at_in_bounds { (at ≤ length list.now) × (count ≤ 32) }
    ensures { DefinitionsRead (sets_in list.now) list.now count at
        work.old work.new result }
{
    let mut end = TermEnd { next: at, terms: 0 };
    for d in 0..count {
        end = read_definition(list, work, sets, d, end.next, end.terms)?;
    }
    Ok(end)
}
