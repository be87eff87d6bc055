// The transports beside each other: the same command by mailbox, by message and through the KCS port.
//
// There is no code here. specs/Answered.antt says what every message gets, by the ticket's own numbers, Same.antt that a message leaves what the
// mailbox command leaves, Kcs.antt that the published host gets its response through the port; Runs.antt and Demand.antt have the laws of any run of
// calls, and demand 3, with messages among them; Known.antt has the table of parameters beside 01 and 000, Examples.antt worked examples.
#![tactic(auto)]
