// The refusal order has no code of its own: definitions in specs/Order.antt, laws in proofs/Laws.antt.
#![tactic(auto)]
