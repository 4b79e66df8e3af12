// The export that a C host calls.
ghost use Rattle.std.specs.Prelude.{◌≡◌};
ghost use Rattle.exchange.specs.Export.{export_call};

use exportfile::export_file;
use wire::{ANSWER_SIZE, write_answer};

// Exports a run file as a text table: returns the answer number, writes the five numbers into the first 20 bytes of the answer and, if it
// is not refused, the table at the front of the output.
#[unsafe(no_mangle)]
pub extern "C" fn octalmure_export(file: &[u8], output: &mut [u8], answer: &mut [u8]) -> u32
    ensures { (result ≡ (export_call file.now output.old answer.old).returns)
        × (output.new ≡ (export_call file.now output.old answer.old).output)
        × (answer.new ≡ (export_call file.now output.old answer.old).answer) }
{
    if answer.len() < ANSWER_SIZE {
        return crate::REFUSED;
    }
    let told = export_file(file, output);
    write_answer(told, answer)
}
