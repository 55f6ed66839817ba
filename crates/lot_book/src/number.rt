// Numbers of up to ten bytes, at a position.
ghost use Rattle.std.specs.Prelude.{◌≡◌, ◌<◌, ◌≤◌};
ghost use Rattle.lot_book.specs.Number.{number_at, Grouped};

// The groups that follow another, of which `more` may follow the first of them: the number that they give and the
// position after it, or that none stands there.
fn later(s: &[u8], at: usize, more: usize) -> Option<(u64, usize)>
    requires { more ≤ 8 }
    ensures { Grouped more s.now at result }
{
    let b = u64::from(*s.get(at)?);
    let next = at + 1;
    if b == 0 {
        return None;
    }
    if more == 0 {
        if 1 < b {
            return None;
        }
        return Some((b, next));
    }
    if b < 128 {
        return Some((b, next));
    }
    let (value, end) = later(s, next, more - 1)?;
    Some(((b - 128) + value * 128, end))
}

// The number at a position and the position after it, or that none stands there.
pub fn read(s: &[u8], at: usize) -> Option<(u64, usize)>
    ensures { result ≡ number_at s.now at }
{
    let a = u64::from(*s.get(at)?);
    let next = at + 1;
    if a < 128 {
        return Some((a, next));
    }
    let (value, end) = later(s, next, 8)?;
    Some(((a - 128) + value * 128, end))
}
