// A file opened: it is judged once, from its front.
ghost use Rattle.openfile.specs.RunTold.{OpensRun};

use crate::judge::open_file;
use crate::told::OpenFile;
use model::Refusal;

// The file, if it tells a run, or its refusal.
pub fn opened<'a>(file: &'a [u8]) -> Result<OpenFile<'a>, Refusal>
    ensures { OpensRun file.entry result }
{
    let head = open_file(file)?;
    Ok(OpenFile { file, head })
}
