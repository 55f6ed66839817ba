// View for C. What a call returns and leaves is `view_call` of crate `words_spec`.
ghost use Rattle.std.specs.Prelude.{◌≡◌};
ghost use Rattle.words_spec.specs.Calls.{view_said, view_call};

use words::load;

// View: how many words the residuals' slots are; in area, in which area they stand.
#[unsafe(no_mangle)]
pub extern "C" fn cspe_view<'a>(
    record: &[u64],
    area0: &'a [u64],
    area1: &'a [u64],
    area: &mut u64,
) -> usize
    ensures { view_said result area.new
        ≡ view_call «record».now area0.now area1.now }
{
    *area = 0;
    if record.len() != 5 {
        return 0;
    }
    let state = load(record);
    let n = monitor::view(state, area0, area1).len();
    if n != 0 {
        *area = state.taken % 2;
    }
    n
}
