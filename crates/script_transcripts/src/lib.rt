// Whole scripts: however the input is cut into blocks, and demand 2 of what a script prints.
// Theorems on the definitions that the contracts of the script are equations with; there is no code here.
#![tactic(auto)]
