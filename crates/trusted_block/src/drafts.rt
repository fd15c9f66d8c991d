// The start and the finish of a draft for host programs in C.
ghost use Rattle.std.specs.Prelude.{◌≡◌};
ghost use Rattle.format.specs.Writer.{write_answer, draft_after, start, finish};
ghost use Rattle.format.specs.GivenNumbers.{number_of, second_of};

use trusted_block_numbers::give;

// Starts a draft.
#[unsafe(no_mangle)]
pub extern "C" fn tb_start(draft: &mut [u8], id: u8, second: &mut u32) -> u32
    ensures number { result ≡ number_of (write_answer (start id draft.old)) }
    ensures draft { draft.new ≡ draft_after (start id draft.old) draft.old }
    ensures second { second.new ≡ second_of (write_answer (start id draft.old)) }
{
    give(writer::start(draft, id), second)
}

// Whether a draft is a legal token.
#[unsafe(no_mangle)]
pub extern "C" fn tb_finish(draft: &[u8], second: &mut u32) -> u32
    ensures number { result ≡ number_of (finish draft.now) }
    ensures second { second.new ≡ second_of (finish draft.now) }
{
    give(writer::finish(draft), second)
}
