// Demand 3: the claim about a flush that is cut and begun again, over lists of calls.
//
// There is no code here. specs/ has what the claim speaks of, over the definitions that the
// contracts of the crates below cite, and in Demand.antt the claim itself; proofs/ has its proof, `demand_3`.
// specs/Recipe.antt has the recovery as a host does it, which is a second run after every cut: `recovers`.
#![tactic(auto)]
