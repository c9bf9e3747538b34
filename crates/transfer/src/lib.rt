// Definitions and laws alone: what each point of a program passes on, and what is found there.
#![tactic(auto)]
