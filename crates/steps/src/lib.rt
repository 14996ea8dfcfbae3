// What each call makes of a record by its entries, and that it follows the ledger: definitions and proofs alone, and no code.
#![tactic(auto)]
