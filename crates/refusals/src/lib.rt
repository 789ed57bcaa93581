// The refusal table of documents 01 and 02: definitions and laws alone.
#![tactic(auto)]
