// Demand 3: the two ends with a plant between them that loses, repeats, delays and reorders what they send. There is no code here: the
// steps are made of the calls' own definitions, and the claim stands in specs/, its proof in proofs/.

#![tactic(auto)]
