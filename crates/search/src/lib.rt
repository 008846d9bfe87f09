// Definitions and laws only: searches over the indices below a count, which every layer above cites.
// There is no running code here; specs/Search.antt has the definitions.
#![tactic(auto)]
