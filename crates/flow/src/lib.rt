// Definitions and laws alone: a table of cells that is filled by sweeps up to its least fixed point.
#![tactic(auto)]
