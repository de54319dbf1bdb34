// The theorem stands in specs/; there is no code here.
#![tactic(auto)]
