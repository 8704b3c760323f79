// Scripts whose bytes are computed from the definitions: see specs/.
#![tactic(auto)]
