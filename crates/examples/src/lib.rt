// The worked examples of document 01 and those of the tickets of document 02, proved from the definitions by one statement. No code.
#![tactic(auto)]
