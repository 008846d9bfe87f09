// Why a call declines: each call's checks as one list of causes, conditions and spots, in order, and the theorem that the call declines by it.
// No code: specs/ has the lists, as document 01's table of refusals has them, and what the calls answer by them.
#![tactic(auto)]
