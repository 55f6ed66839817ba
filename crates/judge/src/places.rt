// The places of numbers in the bytes that a list is written in.
ghost use Rattle.std.specs.Prelude.{◌≡◌, ◌≤◌, length};
ghost use Rattle.table.specs.BytesRefused.{byte_place};

// The place of the i-th number's first byte.
pub fn byte_place(list: &[u16], i: usize) -> usize
    requires { i ≤ length list.now }
    ensures { result ≡ byte_place list.now i }
{
    let mut n = 0;
    for &x in &list[..i] {
        n += numbers::byte_count(x);
    }
    n
}
