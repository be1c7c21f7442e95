// Demand 3: one statement over images (specs/Statement.antt), its proof, and the laws beside it. No code.
#![tactic(auto)]
