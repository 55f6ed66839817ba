// View: the part of an area that holds the residuals (document 01, "Operations").
ghost use Rattle.std.specs.Prelude.{◌≡◌};
ghost use Rattle.monitor_spec.specs.State.{running};
ghost use Rattle.monitor_spec.specs.View.{part_by, view_part};
ghost use Rattle.state.specs.Record.{state_of};
ghost use Rattle.state.specs.Viewed.{part_of, Viewed};

use crate::record::{State, Verdict};

// Which area, 0 or 1, and how many of its words from its beginning. The area is a number, as
// `view_part` and `cspe_view` tell it.
#[derive(Drop)]
struct Part {
    area: u64,
    words: usize,
}

// So many slots of an area, from its beginning; where it has no room for them, the empty beginning
// of area 0.
fn part_in(area: u64, length: usize, count: u64) -> Part
    ensures { part_of result ≡ part_by running count area length }
{
    let n = count as usize;
    if n <= length / 16 {
        Part {
            area,
            words: n * 16,
        }
    } else {
        Part { area: 0, words: 0 }
    }
}

// The part that holds the residuals, where the areas have so many words: by the parity of the
// events taken; after failure the empty beginning of area 0.
fn part_of(state: State, length0: usize, length1: usize) -> Part
    ensures { part_of result ≡ view_part (state_of state) length0 length1 }
{
    let verdict = state.verdict;
    if let Verdict::Failed(_) = verdict {
        return Part { area: 0, words: 0 };
    }
    if state.taken % 2 == 0 {
        part_in(0, length0, state.count)
    } else {
        part_in(1, length1, state.count)
    }
}

// The slots of the residuals held: the beginning of the area that holds them. It is promised where
// the slice begins, and its words.
pub fn view<'a>(state: State, area0: &'a [u64], area1: &'a [u64]) -> &'a [u64]
    ensures { Viewed state area0.entry area1.entry result }
{
    let part = part_of(state, area0.len(), area1.len());
    let n = part.words;
    if part.area == 0 {
        &area0[0..n]
    } else {
        &area1[0..n]
    }
}
