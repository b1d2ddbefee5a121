// The WCSP text format: its definitions and the theorems about them.
#![tactic(auto)]
