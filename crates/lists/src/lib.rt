#![tactic(auto)]

// Definitions and laws about lists, numbers and tests, with nothing of routing in them: see specs/.
