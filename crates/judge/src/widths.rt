// Widths of levels (document 01: hands): refusal 8; and the reach of terms.
ghost use Rattle.std.specs.Prelude.{◌≡◌, ◌<◌, max, length};
ghost use Rattle.std.proofs.Math.Option.{none};
ghost use Rattle.table.specs.References.{first_wrong};
ghost use Rattle.table_index.specs.Index.{table_in};
ghost use Rattle.table_index.specs.Judging.{Judging, WideDone};
ghost use Rattle.table_index.specs.Filling.{stored_call, WidthAsked, WidthGiven, WidthsAsked};
ghost use Rattle.table_index.specs.Filling.{WidthsFilled, LevelAsked, BodyDone, LevelDone};

use table::Kind;
use table_index::layout;

fn larger(a: u64, b: u64) -> u64
    ensures { result ≡ max a b }
{
    if a < b { b } else { a }
}

// What a call counts in a level: 1 for that level, the width of any other.
fn call_width(list: &[u16], work: &[u64], d: usize, level: u64) -> u64
    requires { Judging list.now work.now × (d < length (table_in list.now).definitions) }
    ensures { result ≡ stored_call (table_in list.now) work.now level d }
{
    let l = work[layout::LEVELS_AT + d];
    if l == level {
        1
    } else {
        work[layout::WIDTHS_AT + l as usize]
    }
}

// The width of term n in a level, where the terms after it have theirs.
fn width_at(list: &[u16], work: &[u64], n: usize, level: u64) -> u64
    requires { WidthAsked (table_in list.now) work.now n level }
    ensures { WidthGiven (table_in list.now) work.now n level result }
{
    let w = work[layout::TERMS_AT + n];
    let right = (w / layout::RIGHT_UNIT % layout::RIGHTS) as usize;
    match Kind::of(w % layout::KINDS) {
        Some(Kind::Stop) => 1,
        Some(Kind::Fail) => 1,
        Some(Kind::Prefix) => work[layout::TERMS_AT + n + 1] / layout::WIDTH_UNIT,
        Some(Kind::Choice) => larger(
            work[layout::TERMS_AT + n + 1] / layout::WIDTH_UNIT,
            work[layout::TERMS_AT + right] / layout::WIDTH_UNIT,
        ),
        Some(Kind::Parallel) => {
            work[layout::TERMS_AT + n + 1] / layout::WIDTH_UNIT
                + work[layout::TERMS_AT + right] / layout::WIDTH_UNIT
        }
        Some(Kind::Call) => {
            let d = w / layout::TARGET_UNIT % layout::TARGETS;
            call_width(list, work, d as usize, level)
        }
        None => 0,
    }
}

// The widths of the terms from one number up to another.
fn fill_widths(list: &[u16], work: &mut [u64], from: usize, to: usize, level: u64)
    requires { WidthsAsked (table_in list.now) work.old from to level }
    ensures { WidthsFilled (table_in list.now) work.old work.new from to
        level }
{
    let mut n = to;
    // Down from `to`, since a term needs the terms after it: a `for` over `rev()` is no plainer.
    while from < n {
        n -= 1;
        let width = width_at(list, work, n, level);
        let w = work[layout::TERMS_AT + n];
        work[layout::TERMS_AT + n] = w % layout::WIDTH_UNIT + width * layout::WIDTH_UNIT;
    }
}

// The width of definition d's body in a level; 0 where it is of another.
fn body_width(list: &[u16], work: &mut [u64], d: usize, level: u64) -> u64
    requires { LevelAsked (table_in list.now) work.old level
        × (d < length (table_in list.now).definitions) }
    ensures { BodyDone (table_in list.now) work.old work.new d level
        result }
{
    if work[layout::LEVELS_AT + d] == level {
        let root = work[layout::BODIES_AT + d] as usize;
        let end = work[layout::BODIES_AT + d + 1] as usize;
        fill_widths(list, work, root, end, level);
        work[layout::TERMS_AT + root] / layout::WIDTH_UNIT
    } else {
        0
    }
}

// The largest width among the bodies of a level.
fn level_width(list: &[u16], work: &mut [u64], level: u64) -> u64
    requires { LevelAsked (table_in list.now) work.old level }
    ensures { LevelDone (table_in list.now) work.old work.new level result }
{
    let definitions = work[layout::DEFINITION_COUNT_AT] as usize;
    let mut widest = 0;
    for d in 0..definitions {
        widest = larger(widest, body_width(list, work, d, level));
    }
    widest
}

// The lowest level wider than 8; else the widths of all levels are stored, and the reach of all
// terms.
pub fn first_wide_level(list: &[u16], work: &mut [u64]) -> Option<usize>
    requires judging { Judging list.now work.old }
    requires list_value { first_wrong (table_in list.now) ≡ none }
    ensures { WideDone list.now work.new result }
{
    for level in 0..8 {
        let w = level_width(list, work, level);
        if 8 < w {
            return Some(level as usize);
        }
        work[layout::WIDTHS_AT + level as usize] = w;
    }
    let terms = work[layout::TERM_COUNT_AT] as usize;
    fill_widths(list, work, 0, terms, 8);
    None
}
