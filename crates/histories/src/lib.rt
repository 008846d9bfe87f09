// Demand 2: what keys are answered while plans are carried out, and after any history of inserts and deletes.
// Theorems on the definitions that the contracts of the calls are equations with; there is no code here.
#![tactic(auto)]
