// The log's pages of 256 bytes as a page store of the theory `power`, and the tie between the theory and the code that reads: without
// faults scan_log and find_flight answer what the theory's scan and search do over the image's pages. There is no code here.
#![tactic(auto)]
