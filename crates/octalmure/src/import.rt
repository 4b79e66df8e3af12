// The import that a C host calls.
ghost use Rattle.std.specs.Prelude.{◌≡◌};
ghost use Rattle.exchange.specs.Import.{import_call};

use importfile::import_file;
use wire::{ANSWER_SIZE, write_answer};

// Imports a text table with the setting and the tasks of a run file: returns the answer number, writes the five numbers into the first 20
// bytes of the answer and, if it is not refused, the run file at the front of the output.
#[unsafe(no_mangle)]
pub extern "C" fn octalmure_import(
    file: &[u8],
    table: &[u8],
    output: &mut [u8],
    answer: &mut [u8],
) -> u32
    ensures { (result ≡ (import_call file.now table.now output.old answer.old).returns)
        × (output.new ≡ (import_call file.now table.now output.old answer.old).output)
        × (answer.new ≡ (import_call file.now table.now output.old answer.old).answer) }
{
    if answer.len() < ANSWER_SIZE {
        return crate::REFUSED;
    }
    let told = import_file(file, table, output);
    write_answer(told, answer)
}
