// The published host of a KCS port (IPMI, section 9), and what it gets from the port: lists of accesses, with status reads anywhere between.
//
// There is no code here. specs/Runs.antt has lists of accesses, Host.antt the host's flow charts; Transfers.antt says what the host gets, History.antt
// what any list of accesses and answers makes of the port, Rows.antt what each access does, Examples.antt has worked examples. proofs/ has the proofs.
#![tactic(auto)]
