// Definitions and theorems alone: what remains of a spoiled file (specs/), and what is true of it (proofs/). The code is in `salvager`.
#![tactic(auto)]
