// A theorem only: what the contracts of reading, converting and running give together.
#![tactic(auto)]
