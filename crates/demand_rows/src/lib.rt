// Computed runs of demand 3's steps, literal octets in and literal octets out, with the ends' own message keys: that the claim speaks of opened
// frames, of frames in their octets too, that its bound is right, that a reply read with another key is refused, and that an Authorization Invalid
// reaches the request that it answers. There is no code here, and no definition: proofs/ has the runs, over the steps and calls of `demand_plant`.

#![tactic(auto)]
