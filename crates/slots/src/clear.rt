// Zeroes in lent areas.
ghost use Rattle.std.specs.Prelude.{◌≡◌, ◌++◌, ◌≤◌, length, drop, replicate};

// Zeroes the first n words.
pub fn clear_first(words: &mut [u64], n: usize)
    requires { n ≤ length words.old }
    ensures { words.new ≡ replicate n 0 ++ drop n words.old }
{
    words[..n].fill(0);
}

// Zeroes all words.
pub fn clear_all(words: &mut [u64])
    ensures { words.new ≡ replicate (length words.old) 0 }
{
    words.fill(0);
}
