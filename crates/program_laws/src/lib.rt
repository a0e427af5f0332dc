// What holds of the libraries that the programs are made of (specs/). Theorems alone.
#![tactic(auto)]
