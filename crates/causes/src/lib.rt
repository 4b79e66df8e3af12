#![tactic(auto)]

// Document 02, request 4: the cause of a record, and the chain of causes. Definitions and theorems. No code.
