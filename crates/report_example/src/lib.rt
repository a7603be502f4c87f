// Theory only: document 01's example of the bench program, computed (proofs/). It stands apart, so that no edit computes it again.
#![tactic(auto)]
