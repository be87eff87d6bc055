// What every call and every run of calls keeps, which commands are which, and what every command makes of the flash, the window memory and the event byte, and
// leaves where it is refused, proved of the definitions: specs/ has the claims, proofs/ their proofs. No code.
#![tactic(auto)]
