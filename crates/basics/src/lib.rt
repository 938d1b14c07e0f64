// Definitions that every other crate's specs use: see specs/. No code.
#![tactic(auto)]
