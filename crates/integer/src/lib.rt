// Integers and octets as the other crates' contracts speak of them: definitions in specs/, laws in proofs/, and no code.
#![tactic(auto)]
