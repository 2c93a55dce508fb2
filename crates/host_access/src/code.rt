// Code RAM as the host sees it: words of four bytes, the lowest byte first.
ghost use Rattle.std.specs.Prelude.{◌≡◌, ◌+◌, ◌≤◌};
ghost use Rattle.host_registers.specs.Code.{byte_in, code_word, after_upload};

use machine_state::State;
use words::word;

// Uploads four bytes from a place on, and marks them.
#[tactic(auto, unfolding(host_registers::specs::Code::after_upload))]
pub(crate) fn upload(state: &mut State, at: usize, word: u32)
    requires { at + 4 ≤ 512 }
    ensures { state.new ≡ after_upload state.old at word }
{
    state.code[at..at + 4].copy_from_slice(&word.to_le_bytes());
    state.marks[at..at + 4].fill(1);
}

// A byte that was uploaded, and 0 where none was.
fn uploaded_byte(code: &[u8; families::MAX_CODE], marks: &[u8; families::MAX_CODE], at: usize) -> u8
    requires { at + 1 ≤ 512 }
    ensures { result ≡ byte_in code.now marks.now at }
{
    if marks[at] == 1 { code[at] } else { 0 }
}

// Code and marks are copied here, so that a read of any other register copies neither.
#[tactic(auto, unfolding(host_registers::specs::Code::uploaded_byte))]
pub(crate) fn code_word(state: State, at: usize) -> u32
    requires { at + 4 ≤ 512 }
    ensures { result ≡ code_word state at }
{
    let code = state.code;
    let marks = state.marks;
    word(
        uploaded_byte(&code, &marks, at),
        uploaded_byte(&code, &marks, at + 1),
        uploaded_byte(&code, &marks, at + 2),
        uploaded_byte(&code, &marks, at + 3),
    )
}
