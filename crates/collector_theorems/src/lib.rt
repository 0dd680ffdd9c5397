#![tactic(auto)]

// What the check and the runs promise together, by their contracts alone: see specs/.
