// Reading a term and the terms in it, each of which becomes a word (`leaves`).
//     read_term                    the term at a place, by its kind
//     read_follower, read_sides    what is in a prefix; what is in a choice or a parallel
ghost use Rattle.std.specs.Prelude.{ℕ, ◌+◌, ◌<◌, ◌≤◌, length};
ghost use Rattle.table_index.specs.Index.{sets_in};
ghost use Rattle.table.specs.Node.{follower_spot};
ghost use Rattle.table.specs.Table.{SetRef};
ghost use Rattle.table_index.specs.Parse.{SetsReady, SpotFits, HeadFits, TermRead};
ghost use Rattle.table_index.specs.Parse.Terms.{TermReadBy, Joint, before, TwoSided, HeadOf};
ghost use Rattle.table_index.specs.Parse.Terms.{follower_of, sides_of};

use crate::leaves::{read_call, read_leaf, store_term};
use crate::references::read_reference;
use crate::spots::{beside, follower, side};
use table::{Head, Refusal, Spot, TermEnd, number_at};

// The term at a place, number n, with room for so many levels of terms.
#[cycle(read_follower_read_sides_read_term)]
pub fn read_term(
    list: &[u16],
    work: &mut [u64],
    sets: usize,
    at: usize,
    n: usize,
    deep: usize,
    spot: Spot,
) -> Result<TermEnd, Refusal>
    requires sets_ready { SetsReady list.now work.old sets }
    requires at_in_bounds { (at ≤ length list.now) × (n ≤ 1024) × SpotFits spot deep }
    ensures { TermRead (sets_in list.now) list.now spot deep n at
        work.old work.new result }
{
    let kind = number_at(list, at)?;
    if deep == 0 {
        return Err(Refusal {
            number: 5,
            place: at,
        });
    }
    if 1024 <= n {
        return Err(Refusal {
            number: 5,
            place: at,
        });
    }
    // 01 names this form: one match over kind numbers, with a range arm
    match kind {
        0 => read_leaf(
            work,
            n,
            Head {
                kind: 0,
                parameter: 0,
                target: 0,
                spot,
            },
            at + 1,
        ),
        1 => read_leaf(
            work,
            n,
            Head {
                kind: 1,
                parameter: 0,
                target: 0,
                spot,
            },
            at + 1,
        ),
        2 => {
            let r = read_reference(list, work, sets, at + 1)?;
            let h = Head {
                kind: 2,
                parameter: r.parameter,
                target: r.target,
                spot,
            };
            read_follower(list, work, sets, r.next, n, deep - 1, h)
        }
        3 => {
            let h = Head {
                kind: 3,
                parameter: 0,
                target: 0,
                spot,
            };
            read_sides(list, work, sets, at + 1, n, deep - 1, h, side(spot))
        }
        4 => {
            let r = read_reference(list, work, sets, at + 1)?;
            let h = Head {
                kind: 4,
                parameter: r.parameter,
                target: r.target,
                spot,
            };
            read_sides(list, work, sets, r.next, n, deep - 1, h, beside(spot))
        }
        5 => read_call(list, work, at, n, spot),
        6..=65535 => Err(Refusal {
            number: 5,
            place: at,
        }),
    }
}

// A prefix's follower at a place; then the prefix, number n, whose kind stands at i, is stored.
#[cycle(read_follower_read_sides_read_term)]
fn read_follower(
    list: &[u16],
    work: &mut [u64],
    sets: usize,
    at: usize,
    n: usize,
    deep: usize,
    h: Head,
) -> Result<TermEnd, Refusal>
    requires sets_ready { SetsReady list.now work.old sets }
    requires at_in_bounds { (at ≤ length list.now) × (n < 1024) }
    requires head_fits { HeadFits h × (h.spot.prefixes + deep < 32) }
    ensures { (i : ℕ) (r : SetRef)
        → HeadOf (sets_in list.now) h i (follower_spot h.spot) at (before r)
        → TermReadBy (follower_of (sets_in list.now) deep n r) (sets_in list.now)
        list.now h.spot n i at work.old work.new result }
{
    let end = read_term(list, work, sets, at, n + 1, deep, follower(h.spot))?;
    store_term(work, n, h, n + 1);
    Ok(end)
}

// The two sides at a place of term n, which is stored once the number of the right side is known.
#[cycle(read_follower_read_sides_read_term)]
fn read_sides(
    list: &[u16],
    work: &mut [u64],
    sets: usize,
    at: usize,
    n: usize,
    deep: usize,
    h: Head,
    inner: Spot,
) -> Result<TermEnd, Refusal>
    requires sets_ready { SetsReady list.now work.old sets }
    requires at_in_bounds { (at ≤ length list.now) × (n < 1024) × HeadFits h × SpotFits inner deep }
    ensures { (i : ℕ) (g : Joint) → TwoSided g → HeadOf (sets_in list.now) h i inner at g
        → TermReadBy (sides_of (sets_in list.now) deep n g) (sets_in list.now)
        list.now h.spot n i at work.old work.new result }
{
    let left = read_term(list, work, sets, at, n + 1, deep, inner)?;
    store_term(work, n, h, left.terms);
    read_term(list, work, sets, left.next, left.terms, deep, inner)
}
