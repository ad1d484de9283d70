#![tactic(auto)]

// Definitions and theorems only: a matrix with entries missing, and what it can still do. Nothing of it is about conversion, and no function stands here.
