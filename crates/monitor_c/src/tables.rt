// Read and Write for C. What a call returns and leaves is in crate `words_spec`.
ghost use Rattle.std.specs.Prelude.{◌≡◌};
ghost use Rattle.words_spec.specs.Tables.{table_said as said, read_call, write_call};

use words::tell_table;

// Read: the bytes of a table to its numbers.
#[unsafe(no_mangle)]
pub extern "C" fn cspe_read(
    bytes: &[u8],
    numbers: &mut [u16],
    work: &mut [u64],
    value: &mut u64,
) -> u32
    ensures { said result value.new numbers.new work.new
        ≡ read_call bytes.now numbers.old work.old }
{
    let answer = codec::read(bytes, numbers, work);
    tell_table(answer, value)
}

// Write: the numbers of a table to its bytes.
#[unsafe(no_mangle)]
pub extern "C" fn cspe_write(
    list: &[u16],
    bytes: &mut [u8],
    work: &mut [u64],
    value: &mut u64,
) -> u32
    ensures { said result value.new bytes.new work.new
        ≡ write_call list.now bytes.old work.old }
{
    let answer = codec::write(list, bytes, work);
    tell_table(answer, value)
}
