// Definitions and theorems only: the mathematics of moving rules, over any entries and any relation of order between them.
// There is no running code here; specs/Lib.antt names the modules.
#![tactic(auto)]
