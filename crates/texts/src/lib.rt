// Texts and tables: their definitions stand in specs/, and theorems about them in proofs/. The types that they name are those of `rules`.
#![tactic(auto)]
