// What the drive promises. There is no code here: the theorems are in proofs/, about the definitions that the contracts of the other
// crates name, and the words they are said in are in specs/.

#![tactic(auto)]
