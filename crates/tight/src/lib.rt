// Theorems only: the contract of each public function asks for nothing, and determines its result and all that was lent.
#![tactic(auto)]
