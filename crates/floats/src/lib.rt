// Laws of f64 that the theorems of other crates rest on: signs, sizes, results not smaller than an operand, whole numbers. specs/ has the words,
// proofs/ the laws. No work is done here.
#![tactic(auto)]
