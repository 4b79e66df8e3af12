#![tactic(auto)]

// What a carry keeps, and what widening keeps: the theorems of demand 3. And that carrying twice is carrying once. No code.
