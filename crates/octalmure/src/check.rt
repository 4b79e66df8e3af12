// The check that a C host calls.
ghost use Rattle.std.specs.Prelude.{◌≡◌};
ghost use Rattle.model.specs.Calls.{check_call};

use checkfile::check_file;
use wire::{ANSWER_SIZE, write_answer};

// Checks a run file: returns the answer number and writes the five numbers into the first 20 bytes of the answer.
#[unsafe(no_mangle)]
pub extern "C" fn octalmure_check(file: &[u8], answer: &mut [u8]) -> u32
    ensures { (result ≡ (check_call file.now answer.old).returns)
        × (answer.new ≡ (check_call file.now answer.old).answer) }
{
    if answer.len() < ANSWER_SIZE {
        return crate::REFUSED;
    }
    let told = check_file(file);
    write_answer(told, answer)
}
