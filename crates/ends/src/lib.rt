// Two ends joined by lossy links: what the engine's definitions promise of them (specs/Demand.antt). Theorems alone.
#![tactic(auto)]
