// The theory of low-view bisimulations, runs, words and books: definitions and laws, no code.

#![tactic(auto)]
