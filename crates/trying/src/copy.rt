// Words from one lent area to another.
ghost use Rattle.std.specs.Prelude.{◌≡◌, length};

// Copies an area into one of the same length.
pub fn copy_words(from: &[u64], to: &mut [u64])
    requires { length to.old ≡ length from.now }
    ensures { to.new ≡ from.now }
{
    to.copy_from_slice(from);
}
