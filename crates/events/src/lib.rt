// What each event makes of the table: see specs/. There is no function here.
#![tactic(auto)]
