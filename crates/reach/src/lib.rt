// What chains reach, over any successor function and number of places: the walk by a queue that finds it, and a shortest chain from the queue's
// order. There is no code here: a part's checker has its own arrays and pairs. The definitions are in specs/, the laws in proofs/.
#![tactic(auto)]
