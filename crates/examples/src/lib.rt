// The worked notes of the rules: they speak of the definitions alone, so nothing runs here (specs/Worked.antt).
#![tactic(auto)]
