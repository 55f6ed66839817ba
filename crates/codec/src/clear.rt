// Zeroes in Read's output.
ghost use Rattle.std.specs.Prelude.{◌≡◌, ◌-◌, length, take, replicate, ◌++◌, ◌≤◌};

// Zeroes the numbers from a place on.
pub fn clear_numbers(numbers: &mut [u16], from: usize)
    requires { from ≤ length numbers.old }
    ensures { numbers.new
        ≡ take from numbers.old ++ replicate (length numbers.old - from) 0 }
{
    numbers[from..].fill(0);
}
