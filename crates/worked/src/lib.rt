// The worked histories of `protocol`, computed. They stand apart since computing them takes longer than all proofs there. No code is here.
#![tactic(auto)]
