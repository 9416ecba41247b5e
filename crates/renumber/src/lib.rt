// Nodes renumbered with their order kept, and loose nodes changed: definitions and laws only.
#![tactic(auto)]
