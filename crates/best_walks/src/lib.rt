// The best walk, computed: distances back from its end, then the lowest edge words that still arrive in time. Nothing runs here.
#![tactic(auto)]
