// Sets by number: where one stands, which one has the slots of an area, and whether one more has room.
ghost use Rattle.std.specs.Prelude.{◌≡◌, true, suc, ◌+◌, ◌*◌, ◌≤◌, ◌<◌, length, get_or, set, IfSome};
ghost use Rattle.table.specs.Rows.{alphabet_most};
ghost use Rattle.monitor_spec.specs.State.{chunks};
ghost use Rattle.met_sets.specs.Sets.{count_at, slots_at, Outline};
ghost use Rattle.met_sets.specs.Sets.Laws.{Outline-prop};

// The words of a slot.
pub const SLOT_WORDS: usize = 16;
// So many sets are kept at most, of so many slots in all.
pub const MOST_SETS: usize = 63;

pub const MOST_SLOTS: usize = 104;
// The words of those slots, the places where a set begins or the last one ends, and the bytes of the rows of
// transitions.
pub const SET_WORDS: usize = 1664;

pub const STARTS: usize = 64;

pub const ROW_BYTES: usize = 2560;

// So many sets, with an alphabet of so many events. Set i has the slots from the one at starts[i] up to the one at
// starts[i + 1] of the words `sets`, and next[i * alphabet + e] is 1 + the number of the set that follows it after
// event e, or 0 where that is not known.
#[derive(Drop)]
pub struct MetSets {
    pub alphabet: usize,
    pub count: usize,
    pub sets: [u64; SET_WORDS],
    pub starts: [usize; STARTS],
    pub next: [u8; ROW_BYTES],
    pub ghost outline: { Outline alphabet count sets starts next } by { Outline-prop alphabet count sets starts next },
}

// How many slots set i has, by the places where it begins and ends.
pub fn count_of(starts: &[usize], i: usize) -> usize
    requires { (suc i < length starts.now)
        × (get_or starts.now i 0 ≤ get_or starts.now (suc i) 0) }
    ensures { result ≡ count_at starts.now i }
{
    starts[i + 1] - starts[i]
}

// Whether one set more has room, of so many slots, where k are kept and the next one begins at a slot.
pub fn has_room(alphabet: usize, k: usize, start: usize, count: usize) -> bool
    requires { (k * alphabet ≤ 2560) × (start ≤ 104) }
    ensures { result ≡ true → (k < 63) × (start + count ≤ 104) × (suc k * alphabet ≤ 2560) }
{
    k < MOST_SETS && count <= MOST_SLOTS - start && alphabet <= ROW_BYTES - k * alphabet
}

// After event e set i is followed by set j, in rows of transitions.
pub fn link(alphabet: usize, next: &mut [u8], i: usize, e: u8, j: usize)
    requires { (i * alphabet + e < length next.old) × (j < 63) }
    ensures { next.new ≡ set next.old (i * alphabet + e) (suc j) }
{
    next[i * alphabet + e as usize] = (j + 1) as u8;
}

impl MetSets {
    ghost use Rattle.met_sets.specs.Value.{forgotten, LinkedBy};

    // No set.
    pub fn new() -> Self
        ensures { result.count ≡ 0 }
    {
        MetSets {
            alphabet: 0,
            count: 0,
            sets: [0; SET_WORDS],
            starts: [0; STARTS],
            next: [0; ROW_BYTES],
        }
    }

    // Forgets all sets, for an alphabet of so many events.
    pub fn begin(&mut self, alphabet: usize)
        requires { alphabet ≤ alphabet_most }
        ensures { (self.new.alphabet ≡ alphabet) × (self.new.count ≡ 0) }
    {
        self.forget();
        self.alphabet = alphabet;
    }

    // Forgets all sets.
    pub fn forget(&mut self)
        ensures { self.new ≡ forgotten self.old }
    {
        self.starts[0] = 0;
        self.count = 0;
    }

    // How many slots set i has.
    pub fn count_of(&self, i: usize) -> usize
        requires i_bound { i < self.now.count }
        ensures { result ≡ count_at self.now.starts i }
    {
        count_of(&self.starts, i)
    }

    // Which set has the first slots of an area, so many. The words are compared one by one: `==` of two parts took a
    // third more instructions for each set that differs.
    pub fn find(&self, area: &[u64], count: usize) -> Option<usize>
        requires count_in_bounds { count * 16 ≤ length area.now }
        ensures { IfSome result (λ i. (i < self.now.count)
            × (slots_at self.now.sets self.now.starts i ≡ chunks count area.now)) }
    {
        let words = count * SLOT_WORDS;
        'sets: for i in 0..self.count {
            if self.count_of(i) != count {
                continue;
            }
            let from = self.starts[i] * SLOT_WORDS;
            for j in 0..words {
                if self.sets[from + j] != area[j] {
                    continue 'sets;
                }
            }
            return Some(i);
        }
        None
    }

    // Whether one set more has room, of so many slots.
    pub fn has_room(&self, count: usize) -> bool
        ensures { result ≡ true → (self.now.count < 63) × (get_or self.now.starts self.now.count 0 + count ≤ 104)
            × (suc self.now.count * self.now.alphabet ≤ 2560) }
    {
        // where there is no set, a start may be any number
        let start = self.starts[self.count];
        start <= MOST_SLOTS && has_room(self.alphabet, self.count, start, count)
    }

    // After event e set i is followed by set j.
    pub fn link(&mut self, i: usize, e: u8, j: usize)
        requires { (i < self.old.count) × (e < self.old.alphabet) × (j < self.old.count) }
        ensures { LinkedBy self.old i e j self.new }
    {
        link(self.alphabet, &mut self.next, i, e, j);
    }
}
