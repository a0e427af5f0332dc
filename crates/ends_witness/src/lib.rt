// A run that meets the premises of demand 3, computed (specs/Witness.antt). A theorem alone, apart from `ends` since it takes long to compute.
#![tactic(auto)]
