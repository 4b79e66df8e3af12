#![tactic(auto)]

// Document 02, request 5: how long a job waits, and how many records run at an instant. Definitions and theorems. No code.
