//! Worked tokens, readings, syntax offsets and printed lines, computed from the definitions of `syntax` and `script_text`. There is
//! no code here.
#![tactic(auto)]
