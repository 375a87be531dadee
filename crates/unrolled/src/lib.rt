// The unrolled form of a text: definitions and theorems alone.
#![tactic(auto)]
