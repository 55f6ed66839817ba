// The lot sheet for C. What a call returns and leaves is `sheet_call` of crate `sheet_words`,
// `specs/Call.antt`.
ghost use Rattle.std.specs.Prelude.{◌≡◌};
ghost use Rattle.sheet_words.specs.Call.{sheet_said as said, sheet_call};

use sheet_words::tell_sheet;

// Sheet: a lot book as text.
#[unsafe(no_mangle)]
pub extern "C" fn cspe_sheet(book: &[u8], text: &mut [u8], value: &mut u64) -> u32
    ensures { said result value.new text.new
        ≡ sheet_call book.now text.old }
{
    let answer = sheet::sheet(book, text);
    tell_sheet(answer, value)
}
