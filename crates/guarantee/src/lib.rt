// Definitions and theorems alone: an admitted program runs without a stop, and does not see a bank that is not granted.
#![tactic(auto)]
