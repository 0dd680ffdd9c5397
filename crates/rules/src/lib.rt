#![tactic(auto)]

// The rules page as definitions, with the worked examples beside them, and nothing else: see specs/.
