#![tactic(auto)]
// Laws about numbers and lists that the other crates share. There is no code here: see specs/ and proofs/.
