// Lines as requests, and requests as lines.
#![tactic(auto)]
