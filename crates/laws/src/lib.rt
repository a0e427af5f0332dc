// What holds of every call, proved of the definitions that the calls' promises cite (specs/). Theorems alone.
#![tactic(auto)]
