// The slips that the design invites, as definitions of their own, and the saved block that each loses. No code is here.
#![tactic(auto)]
