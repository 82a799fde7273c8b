// Demand 3: what follows from the rulebook for any list of events from an empty plant. There is no code here: the statements stand in
// specs/, and what shows them in proofs/.
#![tactic(auto)]
