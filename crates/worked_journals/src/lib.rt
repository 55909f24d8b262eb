//! Worked journals, each with what makes it legal or not, computed from the definitions of `journal`. There is no code here.
#![tactic(auto)]
