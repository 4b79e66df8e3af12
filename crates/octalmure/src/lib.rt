// What a C host calls. A byte slice passes as a pointer and then a length.
// Kept: C calls each of the five by its own name, and gets the number 4. The test that they share stands before the call: a closure over the lent output would not say that nothing was written where the test fails.
#![tactic(auto)]

mod carry;
mod check;
mod export;
mod import;
mod why;

pub use carry::octalmure_carry;
pub use check::octalmure_check;
pub use export::octalmure_export;
pub use import::octalmure_import;
pub use why::octalmure_why;

// The number of the answer that something is refused.
const REFUSED: u32 = 4;
