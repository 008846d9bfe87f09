// The three demands of document 01, each as one theorem over what the exported calls return and leave, and requests of document 02: the page to read first.
// No code: specs/ has the statements, each in words of its own, and their proofs from what stands below.
#![tactic(auto)]
