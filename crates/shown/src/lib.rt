// What the tables tell of a cell is what the definitions of the findings say of it: laws only.
#![tactic(auto)]
