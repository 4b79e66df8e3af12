// The question why that a C host asks.
ghost use Rattle.std.specs.Prelude.{◌≡◌};
ghost use Rattle.causes.specs.Why.{why_call};

use whyfile::why_file;
use wire::{ANSWER_SIZE, write_answer};

// Asks why record k of a run file began when it did: returns the answer number, writes the five numbers into the first 20 bytes of the
// answer and, if it is not refused, the chain of causes at the front of the output, as record numbers of four bytes each.
#[unsafe(no_mangle)]
pub extern "C" fn octalmure_why(file: &[u8], k: u32, output: &mut [u8], answer: &mut [u8]) -> u32
    ensures { (result ≡ (why_call file.now k output.old answer.old).returns)
        × (output.new ≡ (why_call file.now k output.old answer.old).output)
        × (answer.new ≡ (why_call file.now k output.old answer.old).answer) }
{
    if answer.len() < ANSWER_SIZE {
        return crate::REFUSED;
    }
    let told = why_file(file, k, output);
    write_answer(told, answer)
}
