// Slots in an area (01, "Residuals": "An area holds slots ascending by first differing word"):
// where a slot belongs among those held, and holding one more. The definitions are in
// `specs/Insertion.antt`.
ghost use Rattle.std.specs.Prelude.{◌≡◌, ◌+◌, ◌-◌, ◌*◌, ◌≤◌, length};
ghost use Rattle.slots.specs.Insertion.{order, order_of, middle_of, narrowed, seek, place_in};
ghost use Rattle.slots.specs.Insertion.{gapped, stored, insert_answer, insert_words};
ghost use Rattle.slots.specs.Holding.{put_one, Gave};

use std::cmp::Ordering;

// How many words a slot has.
const SLOT_WORDS: usize = 16;

// How the i-th slot held stands to a slot, by first differing word.
fn compare(area: &[u64], i: usize, slot: &[u64]) -> Ordering
    requires { (i * 16 + 16 ≤ length area.now) × (length slot.now ≡ 16) }
    ensures { order_of result ≡ order 16 area.now (i * 16) slot.now 0 }
{
    let p = i * SLOT_WORDS;
    area[p..p + SLOT_WORDS].cmp(slot)
}

// Which of the slots from low up to high to compare with: the middle one, or none, which is high,
// where they are at most four.
fn middle_of(low: usize, high: usize) -> usize
    requires { low ≤ high }
    ensures { result ≡ middle_of low high }
{
    if 4 < high - low {
        return low + (high - low) / 2;
    }
    high
}

// From which slot on to search. Slots come mostly ascending, so the last is looked at first; then
// those left are halved. Among ascending slots all before the one found are below the new one.
fn narrow(area: &[u64], count: usize, slot: &[u64]) -> usize
    requires { (count * 16 ≤ length area.now) × (length slot.now ≡ 16) }
    ensures { result ≡ narrowed count area.now slot.now }
{
    if count == 0 {
        return 0;
    }
    let mut low = 0;
    let mut high = count;
    let mut middle = count - 1;
    // no index: two bounds that meet; std's searches ask for a sorted slice, and say less of where
    while middle < high {
        if compare(area, middle, slot).is_lt() {
            low = middle + 1;
        } else {
            high = middle;
        }
        middle = middle_of(low, high);
    }
    low
}

// The search, from a slot on: slot by slot, each left at its first differing word. None: it is held
// already. The words are gone through by a loop that is left by its label, since 01 names that form.
fn find_place(area: &[u64], count: usize, from: usize, slot: &[u64]) -> Option<usize>
    requires { (count * 16 ≤ length area.now) × (length slot.now ≡ 16) × (from ≤ count) }
    ensures { result ≡ seek (count - from) area.now slot.now from }
{
    'slots: for i in from..count {
        for j in 0..SLOT_WORDS {
            let held = area[i * SLOT_WORDS + j];
            let new = slot[j];
            if new < held {
                return Some(i);
            }
            if held < new {
                continue 'slots;
            }
        }
        return None;
    }
    Some(count)
}

// The place of a slot among those held, ascending. None: it is held already.
fn place_of(area: &[u64], count: usize, slot: &[u64]) -> Option<usize>
    requires { (count * 16 ≤ length area.now) × (length slot.now ≡ 16) }
    ensures { result ≡ place_in count area.now slot.now }
{
    let from = narrow(area, count, slot);
    find_place(area, count, from, slot)
}

// Moves the first n words on by a slot, the last of them first: a loop that the compiler makes one move of memory, as
// it does not make std's `copy_within`, nor a loop that ends above 0.
fn move_up(words: &mut [u64], n: usize)
    requires { n + 16 ≤ length words.old }
    ensures { words.new ≡ gapped words.old 0 n }
{
    for k in (0..n).rev() {
        words[k + SLOT_WORDS] = words[k];
    }
}

// Moves the words from p up to n on by a slot.
fn open_gap(area: &mut [u64], p: usize, n: usize)
    requires { (p ≤ n) × (n + 16 ≤ length area.old) }
    ensures { area.new ≡ gapped area.old p n }
{
    move_up(&mut area[p..], n - p);
}

// Stores a slot's words from p on: word by word, since a slot has mostly just been put together so, and a copy of
// sixteen bytes at a time waits for the words stored last (docs/DECISIONS.md, "A slot is handed on by reference").
pub fn store(area: &mut [u64], p: usize, slot: &[u64])
    requires { (p + 16 ≤ length area.old) × (length slot.now ≡ 16) }
    ensures { area.new ≡ stored area.old p slot.now 16 }
{
    for (j, word) in slot[..SLOT_WORDS].iter().enumerate() {
        area[p + j] = *word;
    }
}

// One slot more has no room in an area.
#[derive(Clone, Copy, PartialEq, Eq)]
pub struct Exceeded;

// Holds a slot, unless it is held already or there is no room; whether it is new.
fn insert(area: &mut [u64], count: usize, slot: &[u64]) -> Result<bool, Exceeded>
    requires { (count * 16 ≤ length area.old) × (length slot.now ≡ 16) }
    ensures answer { result ≡ insert_answer area.old count slot.now }
    ensures words { area.new ≡ insert_words area.old count slot.now }
{
    let Some(i) = place_of(area, count, slot) else {
        return Ok(false);
    };
    let n = count * SLOT_WORDS;
    if area.len() - n < SLOT_WORDS {
        return Err(Exceeded);
    }
    let p = i * SLOT_WORDS;
    open_gap(area, p, n);
    store(area, p, slot);
    Ok(true)
}

// Holds one slot more; gives how many are held then.
pub fn put(area: &mut [u64], count: usize, slot: &[u64]) -> Result<usize, Exceeded>
    requires { (count * 16 ≤ length area.old) × (length slot.now ≡ 16) }
    ensures { Gave (put_one area.old count slot.now) result area.new }
{
    let new = insert(area, count, slot)?;
    if new {
        return Ok(count + 1);
    }
    Ok(count)
}
