// The carry that a C host calls.
ghost use Rattle.std.specs.Prelude.{◌≡◌};
ghost use Rattle.model.specs.Calls.{carry_call};

use carryfile::carry_file;
use wire::{ANSWER_SIZE, write_answer};

// Carries a run file to a longer horizon: returns the answer number, writes the five numbers into the first 20 bytes of the answer
// and, if it is not refused, the carried file at the front of the output.
#[unsafe(no_mangle)]
pub extern "C" fn octalmure_carry(
    file: &[u8],
    horizon: u32,
    output: &mut [u8],
    answer: &mut [u8],
) -> u32
    ensures { (result ≡ (carry_call file.now horizon output.old answer.old).returns)
        × (output.new ≡ (carry_call file.now horizon output.old answer.old).output)
        × (answer.new ≡ (carry_call file.now horizon output.old answer.old).answer) }
{
    if answer.len() < ANSWER_SIZE {
        return crate::REFUSED;
    }
    let told = carry_file(file, horizon, output);
    write_answer(told, answer)
}
