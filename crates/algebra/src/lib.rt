// Lemmas alone: a solver for equations between points of any lawful group, in proofs/Solver.antt.
#![tactic(auto)]
