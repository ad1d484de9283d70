#![tactic(auto)]

// Definitions and laws that belong to no one crate: checks with their first fault, walks over arrays, zeros behind the used places. No code.
