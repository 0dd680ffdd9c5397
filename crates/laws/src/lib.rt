#![tactic(auto)]

// What follows from the definitions of `rules`, for every table: see specs/.
