// When a window is open, and the job whose shut steps are idle. Nothing here is code; definitions stand in specs/, what is proved of them in proofs/.
#![tactic(auto)]
