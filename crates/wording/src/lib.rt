// The report as text, its length, and the table of traces. Nothing here is code; the definitions stand in specs/.
#![tactic(auto)]
