// K1 to K11 of paper 01's 'Proved table' as one statement (specs/Table.antt). There is no code here.
#![tactic(auto)]
